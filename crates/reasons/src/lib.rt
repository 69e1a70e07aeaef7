// Why a command is refused, as a value; the first reason against a line (PROTOCOL chapter 5, *Refused*).
#![tactic(auto)]

pub mod sales;

ghost use Rattle.std.specs.Prelude.{◌≡◌, cond};

// One case a reason, in the order of the reply numbers (`reason_number`).
#[derive(Clone, Copy)]
pub enum Reason {
    Done,
    // 1
    Syntax,
    OutOfRange,
    // 2
    Unknown,
    // 3
    WrongPassword,
    Locked,
    ReceiptOpen,
    ManyReceipts,
    MemoryFull,
    NoFiscal,
    PaymentDone,
    ManyLines,
    GroupDisabled,
    OffAboveLine,
    NoLineBack,
    OffAboveGroup,
    NoTotal,
    OffAboveTotal,
    PaidInFull,
    AboveRest,
    NotPaid,
    NoText,
    LittleCash,
    // 4
    ManyFiscal,
    LineOver,
    FinishedOver,
    NotTheSum,
    TotalOver,
    GroupOver,
    RegisterOver,
    DayOver,
    MemoryOver,
    CashOver,
    InOver,
    OutOver,
}

// A reason where its test holds, else what the others say.
pub fn first(test: bool, reason: Reason, others: Reason) -> Reason
    ensures { result ≡ cond test reason others }
{
    if test {
        return reason;
    }
    others
}
