//! The lock.

ghost use Rattle.std.specs.Prelude.{◌≡◌, ℕ, ◌+◌, ◌^◌, ◌<◌, ◌≤◌, ◌↔◌, ◌&&◌, ◌||◌, not, IsTrue, true, false, [], MatchResult, IfOk, IfErr, length};
ghost use Rattle.esx_types.specs.Ids.{has};
ghost use Rattle.esx_lock.specs.declared.view.Hold.TheVariants.{Free, Held};
ghost use Rattle.esx_lock.specs.Words.{bits};
ghost use Rattle.esx_lock.specs.Passes.{SomeId, IsSame, ReadAsBefore, Learns, Took, Missed, FoundBusy, Grows, IsAlike, Meet, IsNew, AreOpened};
ghost use Rattle.esx_lock.specs.Plays.{with_ids};

use crate::gauged::Gauged;
use crate::pass::Pass;
use crate::rule::{
    About, Agreed, Cut, Fetches, Gives, Glue, Looks, Parts, Recalls, Settles, Takes, Union,
};
use crate::view::View;
use crate::waiting::{Part, Waiting};
use crate::word::word_of;
use atomic_table::{Badge, Seat, Table};
use esx_types::{CALLERS, Ids};
use std::alloc::{AllocError, Global};
use std::marker::{Brand, Model};
use std::mem::replace;
use std::snapshot::Snapshot;
use std::sync::Wait;

/// A value that threads take in turn, one at a time, for callers with the numbers below `callers`.
///
/// Its word is eight times the free frames of the value's gauge, plus twice the number of the level (0 `High`
/// to 3 `Low`), plus 1 while a pass holds the value. Of all that find it held one looks and naps by turns, and the
/// others sleep until they are woken for that.
#[derive(Drop)]
pub struct OwnLock<V: Gauged> {
    table: Table<Option<V>, View, About<V>, Agreed<V>, Global>,
    callers: usize,
    waiting: Waiting,
}

impl<V: Gauged> Model for OwnLock<V> {
    ghost use Rattle.esx_lock.specs.Passes.{LockView, IsLock};

    ghost Value = { LockView };

    ghost view = { λ l. record { table = l.table.shared.table_id; callers = l.callers } };

    ghost invariant = { λ l. IsLock l.table.shared.table_id l.table.shared.key.callers l.callers };
}

/// Why the lock was not taken: the word that was read last. A load read it and it is odd, since another pass
/// held the value; or the exchange read it, since another pass was faster.
#[derive(Clone, Copy, Debug, PartialEq, Eq)]
pub struct Busy(pub u64);

impl<V: Gauged> OwnLock<V> {
    /// A lock over the value, and for each caller below `callers` a pass that has seen the value's log. Where
    /// memory is wanting the value is dropped.
    pub fn open(
        alloc: Global,
        value: V,
        callers: usize,
    ) -> Result<(OwnLock<V>, Vec<Pass>), AllocError>
    where
        V: Drop,
        requires { (0 < callers) × (callers ≤ CALLERS) }
        ensures lock { IfOk result (λ r. r.0.callers ≡ callers) }
        ensures passes { IfOk result (λ r. (length r.1.items ≡ callers) × AreOpened r.0.table callers (V.site value) (V.lines value) r.1.items) }
    {
        let passes = Vec::with_capacity(alloc, callers)?;
        let (lock, pass) = OwnLock::with_pass(alloc, value, callers)?;
        let passes = lock.deal(pass, passes)?;
        Ok((lock, passes))
    }

    /// The value again, whose log is what the pass has seen.
    pub fn close(self, pass: Pass) -> V
        requires own { pass.table ≡ self.table }
        requires free { pass.view.hold ≡ Free }
        requires whole { (k : ℕ) → k < self.callers → has pass.view.ids k ≡ true }
        ensures { (V.lines result ≡ pass.view.seen) × (V.site result ≡ pass.view.site) }
    {
        let OwnLock {
            table,
            callers: _,
            waiting: _,
        } = self;
        let mut closed = table.close_with(pass.into_seat());
        let value = closed.take(0);
        closed.free();
        match value {
            Some(value) => value,
            None => unreachable!(),
        }
    }

    /// Takes the lock and the value, and waits while another pass holds it.
    pub fn take<R: Wait>(&self, rt: &R, pass: &mut Pass) -> V
        requires own { pass.old.table ≡ self.now.table }
        requires free { pass.old.view.hold ≡ Free }
        ensures same { (pass.new.table ≡ pass.old.table) × (pass.new.seat ≡ pass.old.seat) }
        ensures told { Took V.legal V.gauge_of pass.old.view pass.new.view (V.site result) (V.lines result) }
    {
        let mut seat = replace(&mut pass.badge, Badge::blank()).into_seat();
        let value = self.take_seat(rt, &mut seat);
        pass.badge = seat.into_badge();
        value
    }

    /// Takes the lock and the value without waiting: one load and, where the word is even, one exchange.
    /// It is `Busy` where the word is odd, or where the exchange found another word.
    pub fn try_take(&self, pass: &mut Pass) -> Result<V, Busy>
        requires own { pass.old.table ≡ self.now.table }
        requires free { pass.old.view.hold ≡ Free }
        ensures same { (pass.new.table ≡ pass.old.table) × (pass.new.seat ≡ pass.old.seat) }
        ensures told { MatchResult result (λ x. Took V.legal V.gauge_of pass.old.view pass.new.view (V.site x) (V.lines x)) (λ busy. Missed V.legal pass.old.view pass.new.view busy.0) }
        ensures word { IfErr result (λ busy. FoundBusy V.gauge_of pass.new.view busy.0) }
    {
        let mut seat = replace(&mut pass.badge, Badge::blank()).into_seat();
        let taken = self.try_seat(&mut seat);
        pass.badge = seat.into_badge();
        match taken {
            Ok(value) => Ok(value),
            Err(word) => Err(Busy(word)),
        }
    }

    /// Gives the value and the lock back, and wakes one that sleeps where this is due. The value has its
    /// site, and the log that was taken, followed by lines of the pass's callers alone.
    pub fn give(&self, pass: &mut Pass, value: V)
        requires own { pass.old.table ≡ self.now.table }
        requires held { pass.old.view.hold ≡ Held }
        requires site { V.site value ≡ pass.old.view.site }
        requires grows { Grows pass.old.view (V.lines value) }
        ensures same { (pass.new.table ≡ pass.old.table) × (pass.new.seat ≡ pass.old.seat) }
        ensures told { IsSame pass.old.view pass.new.view × (pass.new.view.hold ≡ Free) × (pass.new.view.seen ≡ V.lines value) }
        ensures last { ReadAsBefore pass.old.view pass.new.view }
    {
        let mut seat = replace(&mut pass.badge, Badge::blank()).into_seat();
        self.give_seat(&mut seat, value);
        pass.badge = seat.into_badge();
    }

    /// The word, by one load, also while another pass holds the lock.
    pub fn read(&self, pass: &mut Pass) -> u64
        requires own { pass.old.table ≡ self.now.table }
        requires free { pass.old.view.hold ≡ Free }
        ensures same { (pass.new.table ≡ pass.old.table) × (pass.new.seat ≡ pass.old.seat) }
        ensures told { IsSame pass.old.view pass.new.view × (pass.new.view.hold ≡ Free) × Learns V.legal pass.old.view pass.new.view.seen }
        ensures last { (pass.new.view.last ≡ result) × (pass.new.view.by_exchange ≡ false) }
        ensures gauge { (bit : ℕ) × (bit < 2) × (result ≡ bits (V.gauge_of pass.new.view.site pass.new.view.seen) + bit) }
        ensures small { (V.gauge_of pass.new.view.site pass.new.view.seen).0 < 2 ^ 32 }
    {
        let mut seat = replace(&mut pass.badge, Badge::blank()).into_seat();
        let word = self.look(&mut seat);
        pass.badge = seat.into_badge();
        word
    }

    /// Does the pass speak for all callers, so that the lock can be closed with it?
    pub fn whole(&self, pass: &Pass) -> bool
        ensures { IsTrue result ↔ ((k : ℕ) → k < self.now.callers → has pass.now.view.ids k ≡ true) }
    {
        pass.ids.has_all(self.callers)
    }

    /// Parts the callers of a pass. The second pass speaks for `ids`, a part of them, and the first one for the
    /// others; both know what the pass knew.
    pub fn split(&self, pass: Pass, ids: Ids) -> (Pass, Pass)
        requires own { pass.table ≡ self.now.table }
        requires free { pass.view.hold ≡ Free }
        requires part { (k : ℕ) → has ids k ≡ true → has pass.view.ids k ≡ true }
        requires some { SomeId ids }
        requires rest { (k : ℕ) × (has pass.view.ids k ≡ true) × (has ids k ≡ false) }
        ensures same { (result.0.table ≡ pass.table) × (result.1.table ≡ pass.table) }
        ensures first { (k : ℕ) → has result.0.view.ids k ≡ (has pass.view.ids k && not (has ids k)) }
        ensures second { result.1.view.ids ≡ ids }
        ensures alike { IsAlike pass.view result.0.view × IsAlike pass.view result.1.view }
    {
        let kept = pass.ids.without(&ids);
        let mut seat = pass.into_seat();
        let other = self.cut::<Brand>(&mut seat, &kept, &ids);
        (Pass::from_seat(kept, seat), Pass::from_seat(ids, other))
    }

    /// One pass for two. What it has seen is the longer of what they have seen, which begins with the other.
    pub fn join(&self, one: Pass, other: Pass) -> Pass
        requires own { (one.table ≡ self.now.table) × (other.table ≡ one.table) }
        requires free { (one.view.hold ≡ Free) × (other.view.hold ≡ Free) }
        ensures same { (result.table ≡ one.table) × (result.view.site ≡ one.view.site) × (result.view.hold ≡ Free) × (result.view.callers ≡ one.view.callers) × ReadAsBefore one.view result.view }
        ensures ids { (k : ℕ) → has result.view.ids k ≡ (has one.view.ids k || has other.view.ids k) }
        ensures meet { Meet one.view other.view result.view.seen }
    {
        let ids = one.ids.union(&other.ids);
        let mut seat = one.into_seat();
        self.glue::<Brand>(&mut seat, other.into_seat(), &ids);
        Pass::from_seat(ids, seat)
    }

    // The lock, and a pass with all ids.
    fn with_pass(alloc: Global, value: V, callers: usize) -> Result<(OwnLock<V>, Pass), AllocError>
    where
        V: Drop,
        requires { (0 < callers) × (callers ≤ CALLERS) }
        ensures lock { IfOk result (λ r. (r.0.callers ≡ callers) × (r.1.table ≡ r.0.table)) }
        ensures view { IfOk result (λ r. IsNew callers (V.site value) (V.lines value) r.1.view) }
        ensures ids { IfOk result (λ r. ((k : ℕ) → k < callers → has r.1.view.ids k ≡ true) × ((k : ℕ) → has r.1.view.ids k ≡ true → k < callers)) }
    {
        let first = word_of(&value);
        let ids = Ids::all(callers);
        let about = About {
            callers,
            ids,
            opened: Snapshot::of(&value),
        };
        let mut slots = Vec::new(alloc);
        slots.push(Some(value))?;
        let Ok((table, seat)) = Table::new(alloc, &[first], slots, &about) else {
            return Err(AllocError);
        };
        let lock = OwnLock {
            table,
            callers,
            waiting: Waiting::nobody(),
        };
        Ok((lock, Pass::from_seat(ids, seat)))
    }

    // A pass for each id, cut off one by one from a pass with all ids.
    fn deal(&self, pass: Pass, mut passes: Vec<Pass>) -> Result<Vec<Pass>, AllocError>
        requires own { pass.table ≡ self.now.table }
        requires free { pass.view.hold ≡ Free }
        requires ids { ((k : ℕ) → k < self.now.callers → has pass.view.ids k ≡ true) × ((k : ℕ) → has pass.view.ids k ≡ true → k < self.now.callers) }
        requires none { passes.items ≡ [] }
        ensures { IfOk result (λ all. (length all.items ≡ self.now.callers) × AreOpened pass.table pass.view.callers pass.view.site pass.view.seen all.items) }
    {
        let mut rest = pass;
        for i in 0..self.callers - 1 {
            let (others, one) = self.split(rest, Ids::single(i));
            rest = others;
            passes.push(one)?;
        }
        passes.push(rest)?;
        Ok(passes)
    }

    // One load.
    fn look(&self, seat: &mut Seat<Option<V>, View>) -> u64
        requires own { seat.old.table_id ≡ self.now.table }
        requires free { seat.old.me.0.hold ≡ Free }
        requires some { SomeId seat.old.me.0.ids }
        ensures same { (seat.new.table_id ≡ seat.old.table_id) × (seat.new.id ≡ seat.old.id) × (seat.new.me.1 ≡ seat.old.me.1) }
        ensures told { IsSame seat.old.me.0 seat.new.me.0 × (seat.new.me.0.hold ≡ Free) × Learns V.legal seat.old.me.0 seat.new.me.0.seen }
        ensures last { (seat.new.me.0.last ≡ result) × (seat.new.me.0.by_exchange ≡ false) }
        ensures gauge { (bit : ℕ) × (bit < 2) × (result ≡ bits (V.gauge_of seat.new.me.0.site seat.new.me.0.seen) + bit) }
        ensures small { (V.gauge_of seat.new.me.0.site seat.new.me.0.seen).0 < 2 ^ 32 }
    {
        self.table.shared.load::<Looks<V>>(seat, 0)
    }

    // One load and, where the word is even, one exchange.
    fn try_seat(&self, seat: &mut Seat<Option<V>, View>) -> Result<V, u64>
        requires own { seat.old.table_id ≡ self.now.table }
        requires empty { seat.old.me.1 ≡ [] }
        requires free { seat.old.me.0.hold ≡ Free }
        requires some { SomeId seat.old.me.0.ids }
        ensures same { (seat.new.table_id ≡ seat.old.table_id) × (seat.new.id ≡ seat.old.id) × (seat.new.me.1 ≡ []) }
        ensures told { MatchResult result (λ x. Took V.legal V.gauge_of seat.old.me.0 seat.new.me.0 (V.site x) (V.lines x)) (λ word. Missed V.legal seat.old.me.0 seat.new.me.0 word) }
        ensures word { IfErr result (λ word. FoundBusy V.gauge_of seat.new.me.0 word) }
    {
        let shared = &self.table.shared;
        let found = shared.load::<Looks<V>>(seat, 0);
        if found % 2 == 1 {
            return Err(found);
        }
        let again = shared.compare_exchange::<Takes<V>>(seat, 0, found, found + 1);
        if again != found {
            return Err(again);
        }
        let value = shared.exchange(seat, 0, None);
        shared.load::<Settles<V>>(seat, 0);
        match value {
            Some(value) => Ok(value),
            None => unreachable!(),
        }
    }

    // Waits while the word that was read is odd. An even one was read by an exchange that another seat
    // overtook: the lock may be free by now.
    fn take_seat<R: Wait>(&self, rt: &R, seat: &mut Seat<Option<V>, View>) -> V
        requires own { seat.old.table_id ≡ self.now.table }
        requires empty { seat.old.me.1 ≡ [] }
        requires free { seat.old.me.0.hold ≡ Free }
        requires some { SomeId seat.old.me.0.ids }
        ensures same { (seat.new.table_id ≡ seat.old.table_id) × (seat.new.id ≡ seat.old.id) × (seat.new.me.1 ≡ []) }
        ensures told { Took V.legal V.gauge_of seat.old.me.0 seat.new.me.0 (V.site result) (V.lines result) }
    {
        let mut part = Part::Comes;
        for _ in rt.forever() {
            match self.try_seat(seat) {
                Ok(value) => {
                    self.waiting.taken(part);
                    return value;
                }
                Err(word) if word % 2 == 1 => part = self.waiting.wait(rt, part),
                Err(_) => {}
            }
        }
        unreachable!()
    }

    // The slot comes out, the value goes into it, and both go home with the new word.
    fn give_seat(&self, seat: &mut Seat<Option<V>, View>, value: V)
        requires own { seat.old.table_id ≡ self.now.table }
        requires empty { seat.old.me.1 ≡ [] }
        requires held { seat.old.me.0.hold ≡ Held }
        requires some { SomeId seat.old.me.0.ids }
        requires site { V.site value ≡ seat.old.me.0.site }
        requires grows { Grows seat.old.me.0 (V.lines value) }
        ensures same { (seat.new.table_id ≡ seat.old.table_id) × (seat.new.id ≡ seat.old.id) × (seat.new.me.1 ≡ []) }
        ensures told { IsSame seat.old.me.0 seat.new.me.0 × (seat.new.me.0.hold ≡ Free) × (seat.new.me.0.seen ≡ V.lines value) }
        ensures last { ReadAsBefore seat.old.me.0 seat.new.me.0 }
    {
        let shared = &self.table.shared;
        let word = word_of(&value);
        shared.load::<Fetches<V>>(seat, 0);
        let empty = shared.exchange(seat, 0, Some(value));
        shared.store::<Gives<V>>(seat, 0, word);
        self.waiting.given();
        match empty {
            None => {}
            Some(_) => unreachable!(),
        }
    }

    // The seat keeps the ids `kept`, and a new seat has the ids `given`.
    fn cut<P: Parts>(
        &self,
        seat: &mut Seat<Option<V>, View>,
        kept: &Ids,
        given: &Ids,
    ) -> Seat<Option<V>, View>
        requires own { seat.old.table_id ≡ self.now.table }
        requires free { seat.old.me.0.hold ≡ Free }
        requires picked { (P.kept ≡ kept.now) × (P.given ≡ given.now) }
        requires some { SomeId seat.old.me.0.ids }
        requires parts { ((k : ℕ) → has kept.now k ≡ true → has seat.old.me.0.ids k ≡ true) × ((k : ℕ) → has given.now k ≡ true → has seat.old.me.0.ids k ≡ true) × ((k : ℕ) → has kept.now k ≡ true → has given.now k ≡ true → ⊥) }
        ensures kept { (seat.new.table_id ≡ seat.old.table_id) × (seat.new.id ≡ seat.old.id) × (seat.new.me ≡ (with_ids seat.old.me.0 kept.now, seat.old.me.1)) }
        ensures given { (result.table_id ≡ seat.old.table_id) × (result.me ≡ (with_ids seat.old.me.0 given.now, [])) }
    {
        let _ = kept;
        let _ = given;
        self.table.shared.split_seat::<Cut<P>>(seat)
    }

    // The seat has both seats' ids and the longer of their logs; a further load compares the logs.
    fn glue<P: Union>(
        &self,
        seat: &mut Seat<Option<V>, View>,
        other: Seat<Option<V>, View>,
        ids: &Ids,
    )
        requires own { (seat.old.table_id ≡ self.now.table) × (other.table_id ≡ seat.old.table_id) × (seat.old.me.1 ≡ []) × (other.me.1 ≡ []) }
        requires free { (seat.old.me.0.hold ≡ Free) × (other.me.0.hold ≡ Free) }
        requires picked { P.ids ≡ ids.now }
        requires some { SomeId seat.old.me.0.ids × SomeId other.me.0.ids }
        requires union { (k : ℕ) → has ids.now k ≡ (has seat.old.me.0.ids k || has other.me.0.ids k) }
        ensures same { (seat.new.table_id ≡ seat.old.table_id) × (seat.new.id ≡ seat.old.id) × (seat.new.me.1 ≡ []) }
        ensures view { (seat.new.me.0.ids ≡ ids.now) × (seat.new.me.0.hold ≡ Free) × (seat.new.me.0.site ≡ seat.old.me.0.site) × (seat.new.me.0.callers ≡ seat.old.me.0.callers) }
        ensures last { ReadAsBefore seat.old.me.0 seat.new.me.0 }
        ensures meet { Meet seat.old.me.0 other.me.0 seat.new.me.0.seen }
    {
        let _ = ids;
        self.table.shared.join_seat::<Glue<P>>(seat, other);
        self.table.shared.load::<Recalls<V>>(seat, 0);
    }
}
