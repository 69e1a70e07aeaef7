// The seventeen kinds of command, each with its own fields (PROTOCOL 5.1), and the forms that name no sum.
#![tactic(auto)]

pub mod operators;
pub mod plain;

// Compared digit by digit, so with the number of its digits: 00000 is not 0000.
#[derive(Clone, Copy, PartialEq, Eq)]
pub struct Password {
    pub digits: usize,
    pub value: u64,
}

// What is done to a line behind its product, or to a receipt's total: percents in hundredths, amounts in stotinki.
#[derive(Clone, Copy)]
pub enum Adjust {
    Nothing,
    PercentMore(u64),
    PercentLess(u64),
    AmountMore(u64),
    AmountLess(u64),
}

// A line of a receipt: price in stotinki, quantity in thousandths, the group from 0.
#[derive(Clone, Copy)]
pub struct Sale {
    pub group: u64,
    pub minus: bool,
    pub price: u64,
    pub quantity: u64,
    pub adjust: Adjust,
}

// P, N, C, D or U, B or E.
#[derive(Clone, Copy)]
pub enum Mode {
    Cash,
    N,
    C,
    D,
    B,
}

// What is paid at 53: the whole rest, or an amount in stotinki.
#[derive(Clone, Copy)]
pub enum Tender {
    Rest,
    Amount(u64),
}

// 53: in what, and how much.
#[derive(Clone, Copy)]
pub struct Payment {
    pub mode: Mode,
    pub tender: Tender,
}

// 70: a report, or an amount put into the drawer or taken out.
#[derive(Clone, Copy)]
pub enum Service {
    Report,
    In(u64),
    Out(u64),
}

// The seventeen kinds. The texts of 42, 49, 53 and 100 and the name of 102 stay in the data: `first_text` and `second_text` of `command` hand out the
// printed ones, `display::show` the one that is shown, `operators::name_in` the name.
#[derive(Clone, Copy)]
pub enum Command {
    OpenText,
    CloseText,
    PrintText,
    Open {
        op: u64,
        password: Password,
        till: u64,
    },
    Sell(Sale),
    Subtotal {
        print: bool,
        show: bool,
        adjust: Adjust,
    },
    Pay(Payment),
    Close,
    Cancel,
    Sums {
        taxes: bool,
    },
    Closing {
        clears: bool,
    },
    Drawer(Service),
    Status,
    Rates,
    ShowText,
    ChangePassword {
        op: u64,
        old: Password,
        new: Password,
    },
    ChangeName {
        op: u64,
        password: Password,
    },
}

// What stands where no command was read: reply number 1, or 2.
#[derive(Clone, Copy, PartialEq, Eq)]
pub enum Unread {
    Syntax,
    Unknown,
}
