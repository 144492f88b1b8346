#![tactic(auto)]

ghost use Rattle.std.specs.Prelude.{◌≡◌, ◌%◌, ◌<◌};

use std::mem;

/// The record of the current register page, 0 to 3.
// With an `impl Model` a caller's proof would lose the bound, or that records at one page are equal.
#[derive(Drop)]
pub struct Select {
    page: u8,
    ghost ok: { page < 4 },
}

impl Select {
    /// A record at page 0.
    pub fn new() -> Select
        ensures value { result.page ≡ 0 }
    {
        Select { page: 0 }
    }

    /// The current page.
    pub fn page(&self) -> u8
        ensures answer { result ≡ self.now.page }
        ensures bound { result < 4 }
    {
        self.page
    }

    /// Sets the current page. Of the number only the two lowest bits count.
    pub fn select(&mut self, number: u8)
        ensures after { self.new.page ≡ number % 4 }
    {
        *self = Select { page: number % 4 };
    }
}

/// A hold on a select record: the record shows the hold's page,
/// and however the hold ends, the earlier page is back.
/// A hold given to `std::mem::forget` never ends, and its caller learns nothing of the page.
// With no `impl Model`: the clause `lent` names the loan of the record, which a view leaves out.
pub struct Hold<'a> {
    select: &'a mut Select,
    earlier: Select,
}

impl Drop for Hold<'_> {
    /// Puts the earlier page back.
    fn drop(self)
        ensures after { self.exit.0.now ≡ self.entry.earlier }
    {
        let Hold { select, earlier } = self;
        *select = earlier;
    }
}

impl<'a> Hold<'a> {
    /// Holds the record at a page. Of the number only the two lowest bits count.
    pub fn new(select: &'a mut Select, number: u8) -> Hold<'a>
        ensures page { result.select.now.page ≡ number % 4 }
        ensures lent { result.select.ghost_name ≡ select.entry.ghost_name }
        ensures earlier { result.earlier ≡ select.old }
    {
        let earlier = mem::replace(select, Select::new());
        select.select(number);
        Hold { select, earlier }
    }

    /// The page that the record shows.
    pub fn page(&self) -> u8
        ensures answer { result ≡ self.now.select.now.page }
        ensures bound { result < 4 }
    {
        self.select.page()
    }

    /// Ends the hold: the earlier page is back.
    pub fn end(self)
        ensures after { self.exit.0.now ≡ self.entry.earlier }
    {
        // The drop does it.
    }
}

#[cfg(test)]
mod tests;
