//! Where the losses of pages that are away stand.

ghost use Rattle.std.specs.Prelude.{◌≡◌, [], replicate, IfOk, OnOk, OnErr};
ghost use Rattle.esx_types.specs.declared.config.TheConstants.{VM_NUMBERS};
ghost use Rattle.esx_walk.specs.Account.{open_in, with_open, shut, cleared, opened, roomy};

use esx_events::{Answer, Event};
use esx_story::Change;
use esx_types::{Rows, VM_NUMBERS};
use std::alloc::{AllocError, Global};

pub fn place_of(places: &Rows<Rows<u32>>, number: usize, page: usize) -> u32
    ensures { result ≡ open_in places.now number page }
{
    match places.as_slice().get(number) {
        Some(row) => match row.as_slice().get(page) {
            Some(place) => *place,
            None => 0,
        },
        None => 0,
    }
}

fn put_place(places: &mut Rows<Rows<u32>>, number: usize, page: usize, place: u32)
    ensures { places.new ≡ with_open places.old number page place }
{
    if number < places.len() {
        places.row_mut(number).set(page, place);
    }
}

pub fn mark_open(places: &mut Rows<Rows<u32>>, place: u32, lost: &Option<Change>)
    ensures { places.new ≡ opened places.old place lost.now }
{
    let Some(lost) = lost else {
        return;
    };
    put_place(
        places,
        usize::from(lost.vm.number()),
        lost.page as usize,
        place,
    );
}

/// A page that is back stands open no more.
pub fn shut(places: &mut Rows<Rows<u32>>, gained: &Option<Change>)
    ensures { places.new ≡ shut places.old gained.now }
{
    let Some(gained) = gained else {
        return;
    };
    let number = usize::from(gained.vm.number());
    put_place(places, number, gained.page as usize, 0);
}

/// With its last overhead frame a machine goes, and no page of it stands open.
pub fn clear(alloc: Global, places: &mut Rows<Rows<u32>>, event: &Event, answer: &Answer)
    ensures { places.new ≡ cleared places.old event.now answer.now }
{
    if let (Event::Gone { vm }, Answer::Gone) = (event, answer) {
        places.set(usize::from(vm.number()), Rows::new(alloc));
    }
}

pub fn no_places(alloc: Global) -> Result<Vec<Rows<u32>>, AllocError>
    ensures { IfOk result (λ rows. rows.items ≡ replicate VM_NUMBERS []) }
{
    let mut places = Vec::with_capacity(alloc, VM_NUMBERS)?;
    for _number in 0..VM_NUMBERS {
        places.push(Rows::new(alloc))?;
    }
    Ok(places)
}

/// Makes a place for each of so many pages of a machine, if there are fewer.
pub fn make_places(
    alloc: Global,
    places: &mut Rows<Rows<u32>>,
    number: usize,
    pages: usize,
) -> Result<(), AllocError>
    ensures ok { OnOk result (places.new ≡ roomy places.old number pages) }
    ensures err { OnErr result (places.new ≡ places.old) }
{
    if number < places.len() && places.as_slice()[number].len() < pages {
        let mut row = Vec::with_capacity(alloc, pages)?;
        row.extend_from_slice(places.as_slice()[number].as_slice())?;
        row.resize(pages, 0)?;
        places.set(number, Rows::from_vec(row));
    }
    Ok(())
}
