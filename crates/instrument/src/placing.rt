//! Places a site: its blocks get the lowest rooms.

ghost use Rattle.std.specs.Prelude.{◌≡◌, ◌+◌, ◌*◌, ◌<◌, ◌≤◌, ◌^◌, [], IfErr, IfNone, IfSome, OnOk, Ok, Err, length, vec_capacity};
ghost use Rattle.prim_code.specs.Counts.{word_count};
ghost use Rattle.prim_code.specs.Named.{AreBelow};
ghost use Rattle.rv_word.specs.Plain.{Words, program_word};
ghost use Rattle.tramp_spec.specs.Statements.{body_of};
ghost use Rattle.instrument.specs.Admission as table;
ghost use Rattle.instrument.specs.Spaces.{AreRoomsOf, HasNoRoom, IsRoomTaken};

use crate::blocks::{build_mini, move_base};
use crate::buffers::Buffers;
use crate::costs::base_len;
use crate::ledger::Ledger;
use crate::number::Refused;
use crate::program::Program;
use pn_types::Site;
use prim_code::words_of;
use tool_space::Space;
use tramp_spec::{Block, MarkedWord};

/// Takes the lowest room of `len` words, and returns its address: None where there is none.
fn take_room(words: &mut Space, len: u32) -> Option<u64>
    requires some { 0 < len }
    requires reserved { 0 < words.old.takes }
    requires low { words.old.end < 2 ^ 60 }
    ensures none { IfNone result (HasNoRoom words.old len) }
    ensures unchanged { IfNone result (words.new ≡ words.old) }
    ensures taken { IfSome result (λ at. IsRoomTaken words.old words.new at len) }
{
    match words.take(len) {
        Some(word) => Some(4 * word),
        None => None,
    }
}

/// Places the mini block of a site after its base block, if one is placed with it. `words` are those beside the base block.
fn place_mini(
    ledger: &mut Ledger,
    words: &mut Space,
    owner: u64,
    slots: &[u32],
    site: &Site,
    base: Option<Block>,
    buffer: Vec<MarkedWord>,
) -> Result<(), Refused>
    requires rooms { 2 ≤ ledger.old.spare_rooms }
    requires entries { 4 ≤ ledger.old.spare_entries }
    requires reserved { 0 < words.old.takes }
    requires low { words.old.end < 2 ^ 60 }
    requires bases { IfSome base (λ block. length block.words < 2 ^ 32) }
    requires empty { buffer.items ≡ [] }
    requires room { word_count site.now.stmts < vec_capacity buffer }
    requires named { AreBelow (length slots.now) site.now.stmts }
    requires count { word_count site.now.stmts + 1 < 2 ^ 32 }
    ensures ok { OnOk result ((program : Words) → AreRoomsOf program words.old (table.rooms_with base ledger.old.book.rooms)
        → (table.with_mini program owner site.now.at (body_of slots.now site.now.stmts) base ledger.old.book ≡ Ok ledger.new.book)
        × AreRoomsOf program words.new ledger.new.book.rooms) }
    ensures refused { IfErr result (λ refused. (program : Words)
        → AreRoomsOf program words.old (table.rooms_with base ledger.old.book.rooms)
        → table.with_mini program owner site.now.at (body_of slots.now site.now.stmts) base ledger.old.book ≡ Err refused) }
    ensures unchanged { IfErr result (λ refused. (ledger.new ≡ ledger.old) × (words.new ≡ words.old)) }
    ensures rooms_left { ledger.old.spare_rooms ≤ ledger.new.spare_rooms + 2 }
    ensures entries_left { ledger.old.spare_entries ≤ ledger.new.spare_entries + 4 }
    ensures takes_left { words.old.takes ≤ words.new.takes + 1 }
    ensures end { words.new.end ≡ words.old.end }
{
    let len = words_of(site.stmts.as_slice()) + 1;
    let Some(at) = take_room(words, len) else {
        return Err(Refused::NoRoom(len));
    };
    let mini = build_mini(site, slots, at, buffer);
    ledger.place(owner, base, mini);
    Ok(())
}

/// Places a site whose point has no base block: one is placed too. `buffers` give the memory.
fn place_based(
    program: &Program,
    ledger: &mut Ledger,
    words: &mut Space,
    owner: u64,
    slots: &[u32],
    site: &Site,
    buffers: Buffers,
) -> Result<(), Refused>
    requires tied { AreRoomsOf program.now words.old ledger.old.book.rooms }
    requires rooms { 2 ≤ ledger.old.spare_rooms }
    requires entries { 4 ≤ ledger.old.spare_entries }
    requires reserved { 2 ≤ words.old.takes }
    requires low { words.old.end < 2 ^ 60 }
    requires buffers { buffers ≡ word_count site.now.stmts + 1 }
    requires named { AreBelow (length slots.now) site.now.stmts }
    requires count { word_count site.now.stmts + 1 < 2 ^ 32 }
    ensures ok { OnOk result (table.with_base (program_word program.now site.now.at) program.now owner site.now.at
        (body_of slots.now site.now.stmts) ledger.old.book ≡ Ok ledger.new.book) }
    ensures refused { IfErr result (λ refused. table.with_base (program_word program.now site.now.at) program.now owner site.now.at
        (body_of slots.now site.now.stmts) ledger.old.book ≡ Err refused) }
    ensures unchanged { IfErr result (λ refused. ledger.new ≡ ledger.old) }
    ensures tied { AreRoomsOf program.now words.new ledger.new.book.rooms }
    ensures rooms_left { ledger.old.spare_rooms ≤ ledger.new.spare_rooms + 2 }
    ensures entries_left { ledger.old.spare_entries ≤ ledger.new.spare_entries + 4 }
    ensures takes_left { words.old.takes ≤ words.new.takes + 2 }
    ensures end { words.new.end ≡ words.old.end }
{
    let Buffers {
        base: base_words,
        mini,
        ..
    } = buffers;
    let point = site.at;
    let Some(word) = program.word(point) else {
        return Err(Refused::Unmovable(point));
    };
    let len = base_len(word);
    let Some(at) = take_room(words, len) else {
        return Err(Refused::NoRoom(len));
    };
    let Some(base) = move_base(point, word, at, base_words) else {
        words.give(at / 4, len);
        return Err(Refused::Unmovable(point));
    };
    match place_mini(ledger, words, owner, slots, site, Some(base), mini) {
        Ok(()) => Ok(()),
        Err(refused) => {
            words.give(at / 4, len);
            Err(refused)
        }
    }
}

/// Places a site of an instrument: a base block too, where its point has none. `buffers` give the memory.
///
/// # Errors
///
/// Why it has no room. Then nothing was placed.
pub fn place_site(
    program: &Program,
    ledger: &mut Ledger,
    words: &mut Space,
    owner: u64,
    slots: &[u32],
    site: &Site,
    buffers: Buffers,
) -> Result<(), Refused>
    requires tied { AreRoomsOf program.now words.old ledger.old.book.rooms }
    requires rooms { 2 ≤ ledger.old.spare_rooms }
    requires entries { 4 ≤ ledger.old.spare_entries }
    requires reserved { 2 ≤ words.old.takes }
    requires low { words.old.end < 2 ^ 60 }
    requires named { AreBelow (length slots.now) site.now.stmts }
    requires count { word_count site.now.stmts + 1 < 2 ^ 32 }
    requires buffers { buffers ≡ word_count site.now.stmts + 1 }
    ensures ok { OnOk result (table.with_site program.now owner slots.now site.now ledger.old.book ≡ Ok ledger.new.book) }
    ensures refused { IfErr result (λ refused. table.with_site program.now owner slots.now site.now ledger.old.book ≡ Err refused) }
    ensures unchanged { IfErr result (λ refused. ledger.new ≡ ledger.old) }
    ensures tied { AreRoomsOf program.now words.new ledger.new.book.rooms }
    ensures rooms_left { ledger.old.spare_rooms ≤ ledger.new.spare_rooms + 2 }
    ensures entries_left { ledger.old.spare_entries ≤ ledger.new.spare_entries + 4 }
    ensures takes_left { words.old.takes ≤ words.new.takes + 2 }
    ensures end { words.new.end ≡ words.old.end }
{
    if ledger.find_base(site.at).is_some() {
        let Buffers { mini, .. } = buffers;
        return place_mini(ledger, words, owner, slots, site, None, mini);
    }
    place_based(program, ledger, words, owner, slots, site, buffers)
}
