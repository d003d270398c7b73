// The link metric of a circuit (document 01, "Link metric"; RFC 8500, 3.1): the configured metric plus the neighbour's offset, held to a
// limit. No state; caller: gateway.
#![tactic(auto)]

ghost use Rattle.std.specs.Prelude.{◌≡◌, ◌+◌};
ghost use Rattle.metric.specs.Metric.{held_to, limit_of, raised, state_metric, link_metric};

use adjacency::record::State;
use basics::kind::CircuitKind;
use hello::reverse::ReverseMetric;

// The largest metric of a link that is used, and of one that is not (RFC 8500, 2: the U bit).
const MAX_LINK_METRIC: u32 = 16777214;

const MAX_UNREACHABLE: u32 = 16777215;

// A sum, held to a limit.
#[tactic(auto, unfolding(crate::specs::Metric::held_to))]
pub fn held_sum(limit: u32, configured: u32, offset: u32) -> u32
    ensures { result ≡ held_to limit (configured + offset) }
{
    let sum = u64::from(configured) + u64::from(offset);
    if sum <= u64::from(limit) {
        return sum as u32;
    }
    limit
}

fn limit_of(unreachable: bool) -> u32
    ensures { result ≡ limit_of unreachable }
{
    if unreachable {
        return MAX_UNREACHABLE;
    }
    MAX_LINK_METRIC
}

fn raise(configured: u32, reverse: Option<ReverseMetric>) -> u32
    ensures { result ≡ raised configured reverse }
{
    let Some(asked) = reverse else {
        return configured;
    };
    held_sum(limit_of(asked.unreachable), configured, asked.offset)
}

fn metric_of(configured: u32, state: State) -> u32
    ensures { result ≡ state_metric configured state }
{
    let State::Up(data, _) = state else {
        return configured;
    };
    raise(configured, data.last.reverse)
}

// The metric of a circuit with this record, if one stands.
pub fn link_metric(kind: CircuitKind, configured: u32, adjacency: Option<State>) -> u32
    ensures { result ≡ link_metric kind configured adjacency }
{
    let CircuitKind::P2p = kind else {
        return configured;
    };
    let Some(state) = adjacency else {
        return configured;
    };
    metric_of(configured, state)
}
