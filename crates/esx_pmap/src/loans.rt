//! How many pages are lent in each epoch, in the order of the epochs.

ghost use Rattle.std.specs.Prelude.{◌≡◌, ◌==◌, ◌+◌, ◌<◌, ◌≤◌, ◌^◌, ℕ, vec_capacity};
ghost use Rattle.esx_types.specs.Pages.{is_lent, is_lent_in};
ghost use Rattle.esx_lists.specs.Counts.{one};
ghost use Rattle.esx_pmap.specs.Loans.{AreLoans, IsPlace, lent_in, all_lent};

use esx_types::MapRow;

/// The pages lent in one epoch, of which there are some.
#[derive(Clone, Copy)]
pub struct Loan {
    epoch: u32,
    count: u32,
}

/// Where the loans from an epoch on begin.
fn place(loans: &[Loan], epoch: u32) -> usize
    requires { AreLoans loans.now }
    ensures { IsPlace loans.now epoch result }
{
    loans.partition_point(|loan| loan.epoch < epoch)
}

/// How many pages are lent in an epoch.
pub fn lent_in(loans: &[Loan], epoch: u32) -> u32
    requires { AreLoans loans.now }
    ensures { result ≡ lent_in epoch loans.now }
{
    let at = place(loans, epoch);
    if at < loans.len() && loans[at].epoch == epoch {
        loans[at].count
    } else {
        0
    }
}

/// One more page is lent in an epoch.
fn add_loan(loans: &mut Vec<Loan>, epoch: u32)
    requires loans { AreLoans loans.old.items }
    requires room { all_lent loans.old.items < vec_capacity loans.old }
    requires fits { all_lent loans.old.items + 1 < 2 ^ 32 }
    ensures loans { AreLoans loans.new.items }
    ensures room { vec_capacity loans.old ≤ vec_capacity loans.new }
    ensures each { (e : ℕ) → lent_in e loans.new.items ≡ lent_in e loans.old.items + one (epoch == e) }
    ensures all { all_lent loans.new.items ≡ all_lent loans.old.items + 1 }
{
    let at = place(loans, epoch);
    if at < loans.len() && loans[at].epoch == epoch {
        loans[at].count += 1;
    } else {
        loans.insert(at, Loan { epoch, count: 1 }).unwrap();
    }
}

/// One page less is lent in an epoch.
fn remove_loan(loans: &mut Vec<Loan>, epoch: u32)
    requires loans { AreLoans loans.old.items }
    requires some { 1 ≤ lent_in epoch loans.old.items }
    ensures loans { AreLoans loans.new.items }
    ensures room { vec_capacity loans.old ≤ vec_capacity loans.new }
    ensures each { (e : ℕ) → lent_in e loans.new.items + one (epoch == e) ≡ lent_in e loans.old.items }
    ensures all { all_lent loans.new.items + 1 ≡ all_lent loans.old.items }
{
    let at = place(loans, epoch);
    if loans[at].count > 1 {
        loans[at].count -= 1;
    } else {
        loans.remove(at);
    }
}

/// A page's row leaves its place.
pub fn leave(loans: &mut Vec<Loan>, row: &MapRow)
    requires loans { AreLoans loans.old.items }
    requires some { (e : ℕ) → one (is_lent_in e row.now) ≤ lent_in e loans.old.items }
    ensures loans { AreLoans loans.new.items }
    ensures room { vec_capacity loans.old ≤ vec_capacity loans.new }
    ensures each { (e : ℕ) → lent_in e loans.new.items + one (is_lent_in e row.now) ≡ lent_in e loans.old.items }
    ensures all { all_lent loans.new.items + one (is_lent row.now) ≡ all_lent loans.old.items }
{
    match row {
        MapRow::Lent { epoch } => remove_loan(loans, *epoch),
        MapRow::Untouched | MapRow::Here { .. } | MapRow::Out { .. } => {}
    }
}

/// A page's row comes to its place.
pub fn enter(loans: &mut Vec<Loan>, row: &MapRow)
    requires loans { AreLoans loans.old.items }
    requires room { all_lent loans.old.items < vec_capacity loans.old }
    requires fits { all_lent loans.old.items + 1 < 2 ^ 32 }
    ensures loans { AreLoans loans.new.items }
    ensures room { vec_capacity loans.old ≤ vec_capacity loans.new }
    ensures each { (e : ℕ) → lent_in e loans.new.items ≡ lent_in e loans.old.items + one (is_lent_in e row.now) }
    ensures all { all_lent loans.new.items ≡ all_lent loans.old.items + one (is_lent row.now) }
{
    match row {
        MapRow::Lent { epoch } => add_loan(loans, *epoch),
        MapRow::Untouched | MapRow::Here { .. } | MapRow::Out { .. } => {}
    }
}
