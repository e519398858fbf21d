//! What is run of the tables of a site, and of records of changes.

use super::site::{SITE, SPEC, done};
use esx_tables::{Change, Record, SiteTables, VmTable};
use esx_types::Level;
use std::alloc::Global;
use std::process::Abort;
use std::test::Fail;

fn expect_slots(rt: &impl Abort, alloc: Global, tables: &SiteTables) -> Result<(), Fail> {
    let book = tables.book(alloc, Level::High)?;
    assert_eq!(rt; book.slots.len(), 8);
    Ok(())
}

#[test]
fn opens_with_ample_memory(rt: HostRuntime) -> Result<(), Fail> {
    match SiteTables::open(rt.alloc(), &SITE) {
        Ok(tables) => {
            let outcome = expect_slots(&rt, rt.alloc(), &tables);
            done(tables);
            outcome
        }
        Err(fault) => Err(Fail::from(fault)),
    }
}

#[test]
fn admits_with_ample_memory(rt: HostRuntime) -> Result<(), Fail> {
    let vm = VmTable::admitted(rt.alloc(), SPEC)?;
    assert_eq!(rt; vm.spec().max, 6);
    Ok(())
}

#[test]
fn a_record_of_one_change(rt: HostRuntime) -> Result<(), Fail> {
    let record = Record::of(vec![in rt.alloc(); Change::TaxIs { tau: 50 }]?);
    assert_eq!(rt; record.changes().len(), 1);
    Ok(())
}

fn expect_back(rt: &impl Abort, alloc: Global, tables: &mut SiteTables) -> Result<(), Fail> {
    let opened = tables.tau();
    let changes = vec![in alloc; Change::TaxIs { tau: 50 }, Change::TaxIs { tau: 60 }]?;
    let mut record = Record::of(changes);
    tables.exchange_from(&mut record, false);
    assert_eq!(rt; tables.tau(), 60);
    tables.exchange_from(&mut record, true);
    assert_eq!(rt; tables.tau(), opened);
    tables.exchange(&mut record);
    assert_eq!(rt; tables.tau(), 60);
    tables.exchange(&mut record);
    assert_eq!(rt; tables.tau(), opened);
    Ok(())
}

#[test]
fn a_record_leads_back_from_its_end(rt: HostRuntime) -> Result<(), Fail> {
    match SiteTables::open(rt.alloc(), &SITE) {
        Ok(mut tables) => {
            let outcome = expect_back(&rt, rt.alloc(), &mut tables);
            done(tables);
            outcome
        }
        Err(fault) => Err(Fail::from(fault)),
    }
}
