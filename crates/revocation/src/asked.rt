ghost use Rattle.std.specs.Prelude.{◌≡◌, ◌<◌, ◌≤◌, ◌+◌, IsOk, OnOk, OnErr, not, filter, if◌then◌else◌};
ghost use Rattle.indexmap.specs.IndexMap.{spare};
ghost use Rattle.token_table.specs.Table.{same_key, same_client};
ghost use Rattle.token_table.specs.Blockers.{is_open};
ghost use Rattle.revocation.specs.Waiting.{asked_at, Asks, Answers, AsksNothing, still_asked};
ghost use Rattle.revocation.specs.Revokes.{is_within, is_asked, lower_asked, key_of_blocker, asked_with, AsksAll};
ghost use Rattle.token_table.specs.declared.hold_key.HoldKey.{HoldKey};

use cal_base::{ClientId, Oom};
use indexmap::IndexMap;
use token_kind::{Blocker, Class, Hold};
use token_table::HoldKey;

/// What clients are asked to keep at most of their holds, where a Revoke of it is unanswered.
pub type AskedMap = IndexMap<HoldKey, Hold>;

/// What is asked of a hold.
pub fn asked_at(asked: &AskedMap, key: HoldKey) -> Option<Hold>
    ensures { result ≡ asked_at asked.now.entries key }
{
    asked.get(&key).copied()
}

/// The hold that a blocker is.
pub fn key_of(b: Blocker) -> HoldKey
    ensures { result ≡ key_of_blocker b }
{
    HoldKey {
        client: b.client,
        ino: b.ino,
        class: b.class,
    }
}

/// The lower of what is asked, if anything is, and a further mode.
pub fn lower_asked(asked: Option<Hold>, mode: Hold) -> Hold
    ensures { result ≡ lower_asked asked mode }
{
    match asked {
        None => mode,
        Some(asked) => asked.lesser(mode),
    }
}

/// Whether the class is Open, which is never asked back.
pub fn is_open(class: Class) -> bool
    ensures { result ≡ is_open «class» }
{
    match class {
        Class::Names | Class::Data | Class::Attr => false,
        Class::Open => true,
    }
}

/// Whether a blocker is asked already: to its mode or a lower one; or is Open, which is never asked back.
pub fn is_asked(asked: &AskedMap, b: Blocker) -> bool
    ensures { result ≡ is_asked asked.now.entries b }
{
    is_open(b.class) || is_within(asked_at(asked, key_of(b)), b.asked)
}

fn is_within(asked: Option<Hold>, mode: Hold) -> bool
    ensures { result ≡ is_within asked mode }
{
    match asked {
        None => false,
        Some(asked) => !asked.is_above(mode),
    }
}

/// Notes that a hold is asked to a mode. After want of memory all is as it was.
pub fn put(asked: &mut AskedMap, key: HoldKey, mode: Hold) -> Result<(), Oom>
    ensures ok { OnOk result (Asks asked.old.entries asked.new.entries key mode) }
    ensures err { OnErr result (asked.new.entries ≡ asked.old.entries) }
    ensures succeeds { 0 < spare asked.old → IsOk result }
    ensures room { spare asked.old ≤ spare asked.new + 1 }
{
    asked.insert(key, mode)?;
    Ok(())
}

/// Asks for a blocker too, in room that is there.
fn ask(asked: &mut AskedMap, b: Blocker)
    requires { 0 < spare asked.old }
    ensures asked { (q : HoldKey) → asked_at asked.new.entries q ≡ asked_with q (asked_at asked.old.entries q) b }
    ensures room { spare asked.old ≤ spare asked.new + 1 }
{
    if !is_open(b.class) {
        let key = key_of(b);
        let mode = lower_asked(asked_at(asked, key), b.asked);
        put(asked, key, mode).unwrap();
    }
}

/// Asks for all blockers too. After want of memory all is as it was.
pub fn ask_all(asked: &mut AskedMap, blockers: &[Blocker]) -> Result<(), Oom>
    ensures ok { OnOk result (AsksAll asked.old.entries asked.new.entries blockers.now) }
    ensures err { OnErr result (asked.new.entries ≡ asked.old.entries) }
{
    asked.reserve(blockers.len())?;
    for b in blockers {
        ask(asked, *b);
    }
    Ok(())
}

/// Asks nothing more of a hold that is now at or below what was asked.
pub fn answer(asked: &mut AskedMap, key: HoldKey, left: Hold)
    ensures { Answers asked.old.entries asked.new.entries key left }
{
    if let Some(mode) = asked_at(asked, key) {
        if !left.is_above(mode) {
            asked.swap_remove(&key);
        }
    }
}

/// Asks nothing more of a client.
pub fn ask_nothing(asked: &mut AskedMap, c: ClientId)
    ensures { AsksNothing asked.old.entries asked.new.entries c }
{
    drop_keys(asked, c);
}

fn drop_keys(asked: &mut AskedMap, c: ClientId)
    ensures { asked.new.entries ≡ filter (λ e. not (same_client c e.0.client)) asked.old.entries }
{
    asked.retain(
        |key: &HoldKey, mode: &mut Hold| -> bool
            ensures { (result ≡ not (same_client c key.now.client)) × (mode.new ≡ mode.old) }
        { key.client != c },
    );
}
