ghost use Rattle.std.specs.Prelude.{◌≡◌, ◌%◌, ◌<◌};

use crate::{Hold, Select};

// The hold ends with its scope.
fn by_scope(select: &mut Select, number: u8) -> u8
    ensures answer { result ≡ number % 4 }
    ensures same { select.new ≡ select.old }
{
    let hold = Hold::new(select, number);
    hold.page()
}

// The hold ends by its own call.
fn by_end(select: &mut Select, number: u8) -> u8
    ensures answer { result ≡ number % 4 }
    ensures same { select.new ≡ select.old }
{
    let hold = Hold::new(select, number);
    let page = hold.page();
    hold.end();
    page
}

// The hold ends by the library's `drop`.
fn by_drop(select: &mut Select, number: u8) -> u8
    ensures answer { result ≡ number % 4 }
    ensures same { select.new ≡ select.old }
{
    let hold = Hold::new(select, number);
    let page = hold.page();
    drop(hold);
    page
}

// The hold ends by an early return.
fn by_return(select: &mut Select, number: u8) -> u8
    ensures same { select.new ≡ select.old }
{
    let hold = Hold::new(select, number);
    if hold.page() == 3 {
        return 0;
    }
    hold.page()
}

fn even(number: u8) -> Result<u8, u8> {
    if number % 2 == 0 {
        Ok(number)
    } else {
        Err(number)
    }
}

// The hold ends by `?`.
fn by_question_mark(select: &mut Select, number: u8) -> Result<u8, u8>
    ensures same { select.new ≡ select.old }
{
    let hold = Hold::new(select, number);
    let page = even(hold.page())?;
    hold.end();
    Ok(page)
}

// One hold ends, and another is made on the same record.
fn by_turns(select: &mut Select, first: u8, second: u8) -> (u8, u8)
    ensures answer { result ≡ (first % 4, second % 4) }
    ensures same { select.new ≡ select.old }
{
    let shown = by_scope(select, first);
    let hold = Hold::new(select, second);
    (shown, hold.page())
}

// That a page is below 4 is known of every record, also of the two that a hold has, with no call.
fn known_below_four(select: &Select, hold: &Hold)
    ensures shown { select.now.page < 4 }
    ensures held { hold.now.select.now.page < 4 }
    ensures earlier { hold.now.earlier.page < 4 }
{}

// Records at the same page are equal as a whole.
fn both_select(first: &mut Select, second: &mut Select, number: u8)
    ensures same { first.new ≡ second.new }
{
    first.select(number);
    second.select(number);
}

#[test]
fn earlier_page_is_back(rt: HostRuntime) {
    let mut select = Select::new();
    select.select(6);
    assert!(rt; by_scope(&mut select, 5) == 1 && select.page() == 2);
    assert!(rt; by_end(&mut select, 5) == 1 && select.page() == 2);
    assert!(rt; by_drop(&mut select, 5) == 1 && select.page() == 2);
    assert!(rt; by_return(&mut select, 7) == 0 && select.page() == 2);
    assert!(rt; by_question_mark(&mut select, 1) == Err(1) && select.page() == 2);
    assert!(rt; by_turns(&mut select, 3, 4) == (3, 0) && select.page() == 2);
}

#[test]
fn bound_needs_no_call(rt: HostRuntime) {
    let mut select = Select::new();
    let hold = Hold::new(&mut select, 7);
    known_below_four(&Select::new(), &hold);
    assert!(rt; hold.page() == 3);
}

#[test]
fn records_are_equal_by_page(rt: HostRuntime) {
    let mut first = Select::new();
    let mut second = Select::new();
    both_select(&mut first, &mut second, 6);
    assert!(rt; first.page() == 2 && second.page() == 2);
}
