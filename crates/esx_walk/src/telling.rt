//! Losses as they are told, while the path goes on.

ghost use Rattle.std.specs.Prelude.{◌≡◌, ◌<◌, vec_len, vec_capacity};
ghost use Rattle.esx_model.specs.Guests.{is_pressed};
ghost use Rattle.esx_walk.specs.Account.{closed_at, closed, with_loss, wanted_by, waited_at, waited};
ghost use Rattle.esx_walk.specs.Few.{AreFewWaits};

use crate::lives::{Life, life_at};
use crate::opens::place_of;
use esx_events::{Answer, Refusal};
use esx_story::telling::{loan_of, slot_of};
use esx_story::{Change, How, Loss, Seen};
use esx_types::{Rows, VmId};

/// Tells the loss that stood open for a page that is back.
fn close(losses: &mut Vec<Loss>, place: u32, at: u32, how: How)
    ensures items { losses.new.items ≡ closed_at losses.old.items at how place }
    ensures room { (vec_len losses.new ≡ vec_len losses.old) × (vec_capacity losses.new ≡ vec_capacity losses.old) }
{
    if place == 0 {
        return;
    }
    if let Some(loss) = losses.get_mut((place - 1) as usize) {
        loss.back = Some(at);
        loss.came = Some(how);
    }
}

/// Tells the loss of a page that is back.
pub fn come_back(losses: &mut Vec<Loss>, places: &Rows<Rows<u32>>, at: u32, gained: &Option<Change>)
    ensures items { losses.new.items ≡ closed losses.old.items places.now at gained.now }
    ensures room { (vec_len losses.new ≡ vec_len losses.old) × (vec_capacity losses.new ≡ vec_capacity losses.old) }
{
    let Some(gained) = gained else {
        return;
    };
    let number = usize::from(gained.vm.number());
    let place = place_of(places, number, gained.page as usize);
    close(losses, place, at, gained.how);
}

/// Adds a loss, in room that was taken.
pub fn add_loss(
    losses: &mut Vec<Loss>,
    lives: &Rows<Life>,
    at: u32,
    answer: &Answer,
    seen: Option<Seen>,
    lost: &Option<Change>,
)
    requires room { vec_len losses.old < vec_capacity losses.old }
    ensures { losses.new.items ≡ with_loss losses.old.items lives.now at answer.now seen lost.now }
{
    let Some(lost) = lost else {
        return;
    };
    let Some(seen) = seen else {
        return;
    };
    let life = life_at(lives, usize::from(lost.vm.number()));
    losses.push_reserved(Loss {
        at,
        change: *lost,
        life: life.lives,
        set: life.set,
        asked: life.asked,
        seen,
        slot: slot_of(answer),
        loan: loan_of(answer),
        back: None,
        came: None,
        waits: 0,
    });
}

/// Has an access to wait that was refused so?
fn is_pressed(refusal: Refusal) -> bool
    ensures { result ≡ is_pressed refusal }
{
    matches!(refusal, Refusal::Held | Refusal::Short)
}

/// The page that was to be read or written, if the access has to wait.
fn wanted_by(access: Option<(VmId, u32)>, refusal: Refusal) -> Option<(VmId, u32)>
    ensures { result ≡ wanted_by access refusal }
{
    if is_pressed(refusal) { access } else { None }
}

fn wait_once(losses: &mut Vec<Loss>, place: u32)
    requires { AreFewWaits 4294967294 losses.old.items }
    ensures { losses.new.items ≡ waited_at losses.old.items place }
{
    if place == 0 {
        return;
    }
    if let Some(loss) = losses.get_mut((place - 1) as usize) {
        loss.waits += 1;
    }
}

/// Counts an access that was refused for the loss of its page that stands open.
pub fn wait(
    losses: &mut Vec<Loss>,
    places: &Rows<Rows<u32>>,
    access: Option<(VmId, u32)>,
    refusal: Refusal,
)
    requires { AreFewWaits 4294967294 losses.old.items }
    ensures { losses.new.items ≡ waited losses.old.items places.now (wanted_by access refusal) }
{
    let Some((vm, page)) = wanted_by(access, refusal) else {
        return;
    };
    let place = place_of(places, usize::from(vm.number()), page as usize);
    wait_once(losses, place);
}
