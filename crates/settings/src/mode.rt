// The mode of a gateway (document 01, "What the gateway holds"; document 02, W-201).
ghost use Rattle.std.specs.Prelude.{◌≡◌};
ghost use Rattle.settings.specs.Mode.{is_running, is_restarting, is_starting};

#[derive(Clone, Copy, PartialEq, Eq)]
pub enum Mode {
    Running,
    Restarting,
    Starting,
}

// Whether no timer runs.
pub fn is_running(mode: Mode) -> bool
    ensures { result ≡ is_running mode }
{
    mode == Mode::Running
}

// Whether the router restarts with its forwarding tables as they were (RFC 8706, 3.3.1).
pub fn is_restarting(mode: Mode) -> bool
    ensures { result ≡ is_restarting mode }
{
    mode == Mode::Restarting
}

// Whether the router starts without forwarding tables (RFC 8706, 3.3.2).
pub fn is_starting(mode: Mode) -> bool
    ensures { result ≡ is_starting mode }
{
    mode == Mode::Starting
}
