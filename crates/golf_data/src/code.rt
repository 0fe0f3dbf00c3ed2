//! Flat code, which the machine steps. A function's body is a list of instructions, each with a line.
//! Jumps name positions of the body.

use crate::value::Value;
use golf_base::List;

/// An instruction. Operands lie on a stack, the last one on top. `a, b -> c` says what it takes and what it leaves.
/// Slots, globals, functions, texts and fields are named by their places.
#[derive(Debug, Drop, PartialEq)]
pub enum Instr {
    /// `-> n`
    Int(i64),
    /// `-> b`
    Bool(bool),
    /// `-> text`
    Text(u32),
    /// `-> struct{}{}`
    Unit,
    /// `-> nil`
    Nil,
    /// `-> slot`
    Load(u32),
    /// `v ->`
    Store(u32),
    /// `-> global`
    LoadGlobal(u32),
    /// `v ->`
    StoreGlobal(u32),
    /// `v ->`
    Drop,
    /// `v -> v, v`
    Dup,
    /// `a, b -> a, b, a, b`
    Dup2,
    /// `a -> -a`, wrapped
    Neg,
    /// `b -> !b`
    Not,
    /// `a, b -> a + b`, wrapped
    Add,
    /// `a, b -> a - b`, wrapped
    Sub,
    /// `a, b -> a * b`, wrapped
    Mul,
    /// `a, b -> a / b`, toward zero; panics on 0
    Div,
    /// `a, b -> a % b`, with the sign of a; panics on 0
    Rem,
    /// `a, b -> a == b`
    Eq,
    /// `a, b -> a < b`
    Less,
    /// `a, b -> a <= b`
    AtMost,
    /// Goes on at the target.
    Jump(u32),
    /// `b ->`. It goes on at the target if b is false.
    JumpIfNot(u32),
    /// `-> ref`, a struct with the zero values of this row of the code's table
    NewStruct(u32),
    /// `-> ref`, unlocked
    NewMutex,
    /// `-> ref`, counter 0
    NewGroup,
    /// `-> ref`, count 0
    NewRw,
    /// `m -> ref`, a condition with this mutex
    NewCond,
    /// `p -> v`
    Field(u32),
    /// `p, v ->`
    SetField(u32),
    /// `n -> ref`, n elements that have this zero value
    NewSlice(Value),
    /// `n -> ref`, a channel of capacity n whose elements have this zero value
    NewChan(Value),
    /// `s, i -> v`
    Index,
    /// `s, i, v ->`
    SetIndex,
    /// `x -> n`: the elements of a slice, or the buffered values of a channel. It is 0 for nil.
    Len,
    /// `c, v ->`
    Send,
    /// `c -> v`
    Receive,
    /// `c -> v, ok`
    ReceiveOk,
    /// `c ->`
    Close,
    /// Takes the operands of all cases. The second field is the target of `default`, if there is one.
    Select(List<SelectCase>, Option<u32>),
    /// `m ->`
    Lock,
    /// `m ->`
    Unlock,
    /// `w, d ->`
    GroupAdd,
    /// `w ->`
    GroupWait,
    /// `rw ->`
    RwLock,
    /// `rw ->`
    RwUnlock,
    /// `rw ->`
    ReadLock,
    /// `rw ->`
    ReadUnlock,
    /// `c -> m`, the condition's mutex
    CondMutex,
    /// `c ->`
    CondWait,
    /// `c ->`
    CondSignal,
    /// `c ->`
    CondBroadcast,
    /// Calls the function of the first field with as many arguments as the second says.
    Call(u32, u32),
    /// Starts a goroutine on the function of the first field. The second says how many arguments it takes.
    Go(u32, u32),
    /// Defers a call of the function of the first field. The second says how many arguments it takes.
    Defer(u32, u32),
    /// `->`
    Return,
    /// `v ->`
    ReturnValue,
    /// Takes this many operands and prints them as a line.
    Print(u32),
    /// Runs a collection.
    Collect,
    /// `p ->`. The function becomes the finaliser of p's object.
    SetFinalizer(u32),
    /// `p ->`
    ClearFinalizer,
    /// `text ->`. It panics with the text.
    Panic,
}

/// One case of a `select`. A send has two operands, channel and value; a receive has the channel only.
#[derive(Clone, Copy, Debug, PartialEq, Eq)]
pub struct SelectCase {
    pub kind: CaseKind,
    /// Where the goroutine goes on after this case.
    pub target: u32,
}

/// What a case of a `select` does, and which operands it leaves.
#[derive(Clone, Copy, Debug, PartialEq, Eq)]
pub enum CaseKind {
    /// Sends, and leaves nothing.
    Send,
    /// Receives, and leaves the value.
    Take,
    /// Receives, and leaves the value and whether it was sent.
    TakeOk,
}

/// An instruction with the line of its statement or declaration, from 1.
#[derive(Debug, Drop, PartialEq)]
pub struct CodeLine {
    pub instr: Instr,
    pub line: u32,
}

/// A function's code.
#[derive(Debug)]
pub struct Function {
    /// How many arguments it takes. They lie in its first slots.
    pub params: u32,
    /// How many slots a frame of it has.
    pub slots: u32,
    /// The most operands that a frame of it has at the same time.
    pub depth: u32,
    /// The line at which the function is declared.
    pub line: u32,
    pub body: List<CodeLine>,
    /// For each position of the body the mask of its first 64 slots. Bit s is 1 if slot s can still be read from there
    /// on.
    pub live: List<u64>,
}

/// The code of a file. Function 0 runs the initialisers and calls `main`.
#[derive(Debug)]
pub struct Code {
    pub functions: List<Function>,
    /// The zero value of each global.
    pub globals: List<Value>,
    /// For each struct type the zero values of its fields.
    pub structs: List<List<Value>>,
    /// The empty text at 0, and then each different text in order of first appearance.
    pub texts: List<List<u8>>,
    /// The line of `func main`.
    pub main_line: u32,
}

// Both drops are written out once here, so that no other crate has to prove the drop of each field.
impl Drop for Function {
    fn drop(self) {
        let Function {
            params: _,
            slots: _,
            depth: _,
            line: _,
            body: _,
            live: _,
        } = self;
    }
}

impl Drop for Code {
    fn drop(self) {
        let Code {
            functions: _,
            globals: _,
            structs: _,
            texts: _,
            main_line: _,
        } = self;
    }
}
