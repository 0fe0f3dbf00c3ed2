//! Small codes for tests of the machine.

/// The instructions of `main`, and those of function 1.
#[derive(Clone, Copy)]
pub struct Texts(pub &'static str, pub &'static str);

/// A goroutine sends 5 on an unbuffered channel, and `main` prints what it receives.
pub const ONE_VALUE: Texts = Texts(
    "Int(0); NewChan(Int(0)); Store(0); Load(0); Go(1, 1); Load(0); Receive; Print(1); Return",
    "Load(0); Int(5); Send; Return",
);

/// A goroutine sends 3 and 5 on a channel of capacity 1, and `main` prints both after it has received them.
pub const TWO_VALUES: Texts = Texts(
    "Int(1); NewChan(Int(0)); Store(0); Load(0); Go(1, 1); Load(0); Receive; Load(0); Receive; Print(2)",
    "Load(0); Int(3); Send; Load(0); Int(5); Send",
);

/// `main` receives from a channel that no goroutine sends on.
pub const NO_SENDER: Texts = Texts("Int(0); NewChan(Int(0)); Receive", "");

/// `main` calls a function that prints its argument, and returns.
pub const ONE_CALL: Texts = Texts("Int(7); Call(1, 1); Return", "Load(0); Print(1); Return");

/// `main` calls a function that makes a channel of a negative size at line 2.
pub const ONE_PANIC: Texts = Texts("Int(7); Call(1, 1); Return", "Int(-1); NewChan(Int(0))");

/// `main` collects at line 2, and returns.
pub const ONE_COLLECTION: Texts = Texts("Bool(true); Collect; Return", "");

/// `main` calls a function that panics at line 2.
pub const PANIC_IN_CALL: Texts = Texts("Int(1); Call(1, 1); Return", "Text(1); Panic; Return");

/// `main` defers a call of a function that does nothing, and returns.
pub const DEFERRED_CALL: Texts = Texts("Int(5); Defer(1, 1); Return", "Return");

/// `main` calls a function that does nothing, and returns.
pub const PLAIN_CALL: Texts = Texts("Int(5); Call(1, 1); Return", "Return");
