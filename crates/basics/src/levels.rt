// A set of levels: those that a circuit has, or that an order (an action the caller must take) is for.
ghost use Rattle.std.specs.Prelude.{◌≡◌};
ghost use Rattle.basics.specs.Levels.{within, union, has_level, only_level, some_on};

#[derive(Clone, Copy)]
pub struct Levels {
    pub one: bool,
    pub two: bool,
}

// Whether the level of a number is in the set.
pub fn has_level(levels: Levels, level: u8) -> bool
    ensures { result ≡ has_level levels level }
{
    ((level == 1) & levels.one) | ((level == 2) & levels.two)
}

// The level of a number alone; no level where there is none of that number.
pub fn only_level(level: u8) -> Levels
    ensures { result ≡ only_level level }
{
    Levels {
        one: level == 1,
        two: level == 2,
    }
}

// Whether there is a level in the set.
pub fn some_on(levels: Levels) -> bool
    ensures { result ≡ some_on levels }
{
    levels.one || levels.two
}

// Whether each level of `l` is in `s`.
pub fn is_within(l: Levels, s: Levels) -> bool
    ensures { result ≡ within l s }
{
    (!l.one | s.one) & (!l.two | s.two)
}

// The levels of either.
pub fn join_levels(l: Levels, s: Levels) -> Levels
    ensures { result ≡ union l s }
{
    Levels {
        one: l.one | s.one,
        two: l.two | s.two,
    }
}
