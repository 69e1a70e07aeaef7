// The reasons against a command, asked one by one (PROTOCOL chapter 5, *Refused*).
ghost use Rattle.std.specs.Prelude.{◌≡◌, not, ◌+◌};
ghost use Rattle.books.specs.Groups.{at};
ghost use Rattle.books.specs.Rates.{is_enabled, rate_in};
ghost use Rattle.books.specs.Sound.{in_twelve};
ghost use Rattle.rules.specs.Reasons.{is_price, tender_holds, full, many_opened, unmet};

use crate::views::When;
use amounts::PRICE_LIMIT;
use books::sound::MOST_RECEIPTS;
use books::{Books, parts, rates};
use kinds::Tender;

// Ten digits of stotinki at most.
pub fn is_price(n: u64) -> bool
    ensures { result ≡ is_price n }
{
    n < PRICE_LIMIT
}

// What a 53 can give: the rest, or a PRICE above zero.
pub fn holds_tender(tender: Tender) -> bool
    ensures { result ≡ tender_holds tender }
{
    match tender {
        Tender::Rest => true,
        Tender::Amount(n) => (0 < n) & is_price(n),
    }
}

// Whether the fiscal memory takes no closing more.
pub fn is_full(books: Books) -> bool
    ensures { result ≡ full books }
{
    rates::capacity(books) <= books.memory.closings
}

// Whether All is at its end: no receipt of either kind is opened until the day is closed.
pub fn are_many(books: Books) -> bool
    ensures { result ≡ many_opened books }
{
    MOST_RECEIPTS <= books.counters.all
}

// Whether what has to be open for a command that only asks is not.
pub fn is_unmet(books: Books, when: When) -> bool
    ensures { result ≡ unmet books when }
{
    let opened = books.opened;
    match when {
        When::Always => false,
        When::FiscalIsOpen => !parts::fiscal_open(opened),
        When::TextIsOpen => !parts::text_open(opened),
        When::NoneIsOpen => parts::any_open(opened),
    }
}

// Whether a group may be sold in.
pub fn is_enabled(books: Books, group: u64) -> bool
    ensures { result ≡ is_enabled (rate_in books group) }
{
    rates::rate_in(books, group).is_some()
}

// A group's day sum; past the eighth group there is nothing.
pub fn day_at(day: [u64; 8], group: u64) -> u64
    ensures { result ≡ at day group }
{
    if 8 <= group {
        return 0;
    }
    day[group as usize]
}

// Whether a sum with n more passes its twelve digits.
pub fn passes(sum: u64, n: u64) -> bool
    ensures { result ≡ not (in_twelve (sum + n)) }
{
    !amounts::fits_sum(sum, n)
}
