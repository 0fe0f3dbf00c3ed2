//! The measurement that the words ask for.

ghost use Rattle.std.specs.Prelude.{◌≡◌, length};

use crate::codes::Kind;

/// A measurement.
#[derive(Clone, Copy, Debug, PartialEq, Eq)]
pub(crate) enum Order {
    /// A few turns of each code, and a collection of a small state.
    Small,
    /// This many turns of a code, while `blocked` goroutines are blocked elsewhere.
    Turns {
        kind: Kind,
        blocked: u32,
        turns: u64,
    },
    /// Collections of a state with this many pairs of goroutines, by this many markers.
    Collections {
        pairs: u32,
        markers: u32,
    },
}

fn kind_of(word: &str) -> Option<Kind> {
    match word {
        "loop" => Some(Kind::Loop),
        "channel" => Some(Kind::Channel),
        "mutex" => Some(Kind::Mutex),
        _ => None,
    }
}

fn collections(words: &[String]) -> Option<Order>
    requires { length words.now ≡ 2 }
{
    let pairs = words[0].parse::<u32>().ok()?;
    let markers = words[1].parse::<u32>().ok()?;
    Some(Order::Collections { pairs, markers })
}

fn turns(words: &[String]) -> Option<Order>
    requires { length words.now ≡ 3 }
{
    let kind = kind_of(words[0].as_str())?;
    let blocked = words[1].parse::<u32>().ok()?;
    let turns = words[2].parse::<u64>().ok()?;
    Some(Order::Turns {
        kind,
        blocked,
        turns,
    })
}

/// Returns the measurement that the words ask for, or `None`.
pub(crate) fn read_order(words: &[String]) -> Option<Order> {
    match words.len() {
        0 => Some(Order::Small),
        2 => collections(words),
        3 => turns(words),
        _ => None,
    }
}
