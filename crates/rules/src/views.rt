// What each command is to the books (PROTOCOL 5.1): the one table over the seventeen kinds.
ghost use Rattle.std.specs.Prelude.{◌≡◌};
ghost use Rattle.kinds.specs.declared.Command.TheVariants.{Sums, Closing, Drawer};
ghost use Rattle.rules.specs.Views.{asks_nothing, subtotal_view, view_of};

use books::Shown;
use kinds::{Adjust, Command, Payment, Sale, Service};

// What has to be open for a command that only asks (PROTOCOL 5.2).
#[derive(Clone, Copy)]
pub enum When {
    Always,
    FiscalIsOpen,
    TextIsOpen,
    NoneIsOpen,
}

// The eleven ways to change the books, and one for every command that changes nothing in them.
#[derive(Clone, Copy)]
pub enum View {
    Opens,
    Sells(Sale),
    Adjusts(Adjust),
    Pays(Payment),
    Closes,
    Cancels,
    OpensText,
    ClosesText,
    Clears,
    Puts(u64),
    Takes(u64),
    Asks { when: When, shown: Shown },
}

// The view of any command.
pub fn view_of(command: Command) -> View
    ensures { result ≡ view_of command }
{
    match command {
        Command::OpenText => View::OpensText,
        Command::CloseText => View::ClosesText,
        Command::PrintText => View::Asks {
            when: When::TextIsOpen,
            shown: Shown::Nothing,
        },
        Command::Open { .. } => View::Opens,
        Command::Sell(s) => View::Sells(s),
        Command::Subtotal { adjust, .. } => of_subtotal(adjust),
        Command::Pay(p) => View::Pays(p),
        Command::Close => View::Closes,
        Command::Cancel => View::Cancels,
        Command::Sums { taxes } => of_sums(taxes),
        Command::Closing { clears } => of_closing(clears),
        Command::Drawer(s) => of_service(s),
        Command::Status => View::Asks {
            when: When::Always,
            shown: Shown::Status,
        },
        Command::Rates => View::Asks {
            when: When::Always,
            shown: Shown::Rates,
        },
        Command::ShowText | Command::ChangePassword { .. } | Command::ChangeName { .. } => {
            ask_nothing()
        }
    }
}

// 100, 101 and 102: always permitted, and nothing of the books is shown.
fn ask_nothing() -> View
    ensures { result ≡ asks_nothing }
{
    View::Asks {
        when: When::Always,
        shown: Shown::Nothing,
    }
}

// 51 changes the whole receipt, or only asks.
fn of_subtotal(adjust: Adjust) -> View
    ensures { result ≡ subtotal_view adjust }
{
    match adjust {
        Adjust::Nothing => View::Asks {
            when: When::FiscalIsOpen,
            shown: Shown::Subtotal,
        },
        _ => View::Adjusts(adjust),
    }
}

// 65 asks for the taxes or for the day sums.
fn of_sums(taxes: bool) -> View
    ensures { result ≡ view_of (Sums taxes) }
{
    if taxes {
        return View::Asks {
            when: When::Always,
            shown: Shown::Taxes,
        };
    }
    View::Asks {
        when: When::Always,
        shown: Shown::DaySums,
    }
}

// 69 closes the day, or only reports.
fn of_closing(clears: bool) -> View
    ensures { result ≡ view_of (Closing clears) }
{
    if clears {
        return View::Clears;
    }
    View::Asks {
        when: When::NoneIsOpen,
        shown: Shown::Closure,
    }
}

// 70 puts in, takes out, or only reports.
fn of_service(s: Service) -> View
    ensures { result ≡ view_of (Drawer s) }
{
    match s {
        Service::Report => View::Asks {
            when: When::NoneIsOpen,
            shown: Shown::InDrawer,
        },
        Service::In(n) => View::Puts(n),
        Service::Out(n) => View::Takes(n),
    }
}
