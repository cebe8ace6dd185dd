ghost use Rattle.std.specs.Prelude.{◌≡◌, ◌≢◌, ◌<◌, ◌≤◌, ◌+◌, ◌++◌, ◌∷◌, [], ℕ, true, false, List, All, IfOk, IfErr, None, OnOk, drop, length, map, nat_lt, not};
ghost use Rattle.std.specs.List.{list_any};
ghost use Rattle.cal_base.specs.Limits as limits;
ghost use Rattle.message.specs.Range as range;
ghost use Rattle.message.specs.declared.message.Message.TheVariants.{Grant as Grants};
ghost use Rattle.shared_disk.specs.declared.disk_refusal.DiskRefusal.{DiskRefusal};
ghost use Rattle.token_table.specs.Table.{IsGrantable, IsTable, held_of, is_held};
ghost use Rattle.tree_law.specs.Entries.{AreEntries};
ghost use Rattle.tree_law.specs.Rename.{is_directory};
ghost use Rattle.tree_law.specs.Tree.{node_at};
ghost use Rattle.volume_plan.specs.Shown.{shown};
ghost use Rattle.tree_law.specs.declared.request.Asked.TheVariants.{Want as Wants};
ghost use Rattle.tree_law.specs.declared.request.Want.{Want};
ghost use Rattle.volume_edit.specs.Edit.{inode_at};
ghost use Rattle.volume_plan.specs.Plans.{free_count};
ghost use Rattle.cluster_law.specs.Blocking.{is_shown};
ghost use Rattle.cluster_law.specs.DiskRules.{is_in_blocks, reads_for};
ghost use Rattle.cluster_law.specs.Granting.{AreBytes, AreEntriesOf, IsFreshContent};
ghost use Rattle.cluster_law.specs.Lists.{is_empty};
ghost use Rattle.cluster_law.specs.ServerRules.{ActsWell, Occasion};
ghost use Rattle.cluster_law.specs.ServerState.{ServerState, as_request, granted_token, telling};
ghost use Rattle.server_draft.specs.Acts.{act_of, acts_of, tells, told_to};
ghost use Rattle.server_draft.specs.Draft.{Follows, HasSpace, reached};
ghost use Rattle.server_draft.specs.declared.act.Act.TheVariants.{Tells};
ghost use Rattle.server_line.specs.Blocked.{CanBeAsked, HasWant, IsGap};
ghost use Rattle.server_line.specs.Granted.{Answers, AreAnswers, AreNeeds, IsNamed, IsNeed, MayRead};
ghost use Rattle.server_line.specs.Known.{IsHead, SeesOwn, known};
ghost use Rattle.volume_names.specs.Named.{AreNamed};
ghost use Rattle.server_line.specs.Served.{Keeps, Serves, Stops};
ghost use Rattle.server_line.specs.Stopping.{OnlyReads};
ghost use Rattle.server_line.specs.declared.stopping.ServeError.TheVariants.{Refused};

use crate::changing::answer;
use crate::needing::Gap;
use crate::resting::{is_free, rest, table_of};
use crate::stopping::ServeError;
use cal_base::{Blob, CLIENTS, ClientId, EntryList, Ino, Oom};
use fence::Port;
use image::{Image, read_file_behind};
use message::Message;
use server_draft::Draft;
use shared_disk::PortDisk;
use std::alloc::Global;
use token_kind::{Block, Class, Content, GrantItem, GrantItemList, Hold, Token};

/// Serves the Acquire at the head of the line: grants what lacks where nothing blocks it and there are blocks
/// enough, refuses it where too few are free and nobody can give any back, and else asks back what blocks it.
pub(crate) fn serve_want<D: PortDisk>(
    alloc: Global,
    draft: &mut Draft,
    port: &Port,
    disk: &mut D,
    client: ClientId,
    number: u64,
    gap: &Gap,
) -> Result<Option<Block>, ServeError>
    requires wants { HasWant draft.old client number gap.now }
    requires askable { CanBeAsked gap.now.blockers }
    ensures reads { OnlyReads (D.means disk.old) port.now.view (D.fault_count disk.old) result (D.means disk.new) (D.fault_count disk.new) }
    ensures serves { IfOk result (Serves (λ start. SeesOwn start port.now.view (D.means disk.old)) ((D.means disk.old).key ≢ port.now.view) draft.old draft.new) }
    ensures stops { IfErr result (λ error. Stops error draft.old draft.new) }
{
    if !is_free(&gap.blockers) {
        let blocked = rest(draft, client, number, &gap.blockers)?;
        return Ok(blocked);
    }
    let free = draft.image.free();
    if free < gap.wanted {
        let needed = gap.wanted;
        answer(
            draft,
            client,
            Message::Refuse {
                number,
                free,
                needed,
            },
        )?;
        return Ok(None);
    }
    match grant(alloc, draft, port, disk, client, number, gap) {
        Ok(()) => Ok(None),
        Err(error) => Err(error),
    }
}

/// Grants the client of the head what it lacks, with what it has to know of it.
fn grant<D: PortDisk>(
    alloc: Global,
    draft: &mut Draft,
    port: &Port,
    disk: &mut D,
    client: ClientId,
    number: u64,
    gap: &Gap,
) -> Result<(), ServeError>
    requires client { client.0 < limits.clients }
    requires number { 1 ≤ number }
    requires apart { All (IsGrantable draft.old.desk.collecting.table client) gap.now.lacking }
    requires needs { AreNeeds draft.old.image gap.now.lacking }
    requires lacks { All (λ need. not (is_shown draft.old.desk.collecting.table client need) ≡ true) gap.now.lacking }
    ensures reads { OnlyReads (D.means disk.old) port.now.view (D.fault_count disk.old) result (D.means disk.new) (D.fault_count disk.new) }
    ensures serves { OnOk result ((want : Want) → IsHead draft.old (as_request client number (Wants want)) → ((sectors : List (List ℕ)) → IsGap (known draft.old sectors) client number want gap.now)
        → is_empty (gap.now.blockers.to_ask ++ gap.now.blockers.own) ≡ true → nat_lt (free_count draft.old.image) gap.now.wanted ≡ false
        → Serves (λ start. SeesOwn start port.now.view (D.means disk.old)) ((D.means disk.old).key ≢ port.now.view) draft.old draft.new None) }
    ensures same { IfErr result (λ error. (why : DiskRefusal) → error ≡ Refused why → draft.new ≡ draft.old) }
    ensures stops { IfErr result (λ error. (why : DiskRefusal) → error ≡ Refused why → list_any (reads_for (known draft.old []) client) gap.now.lacking ≡ true) }
{
    match items_for(alloc, draft, port, disk, client, gap.lacking.as_slice()) {
        Ok(items) => {
            give(draft, client, number, gap.lacking.as_slice(), items)?;
            Ok(())
        }
        Err(error) => Err(error),
    }
}

/// Grants the client of the head these tokens with these items.
fn give(
    draft: &mut Draft,
    client: ClientId,
    number: u64,
    lacking: &[Token],
    items: GrantItemList,
) -> Result<(), Oom>
    requires client { client.0 < limits.clients }
    requires message { range.IsMessage (Grants number items) }
    requires apart { All (IsGrantable draft.old.desk.collecting.table client) lacking.now }
    requires needs { AreNeeds draft.old.image lacking.now }
    requires tokens { map granted_token items ≡ lacking.now }
    ensures keeps { OnOk result (Keeps draft.old draft.new) }
    ensures image { OnOk result (draft.new.image ≡ draft.old.image) }
    ensures gone { OnOk result (draft.new.desk.requests ≡ drop 1 draft.old.desk.requests) }
    ensures acts { OnOk result ((view : ℕ) → acts_of view draft.new.acts ≡ act_of view (Tells client (Grants number items)) ∷ acts_of view draft.old.acts) }
    ensures count { OnOk result ((to : ℕ) → told_to to draft.new.acts ≡ told_to to draft.old.acts + tells to (Tells client (Grants number items))) }
    ensures follows { OnOk result ((view : ℕ) (o : Occasion) (start : ServerState) → Follows view o start draft.old → HasSpace (telling (known draft.old (reached view start draft.old).sectors) client (Grants number items))
        → ActsWell o start (known draft.old (reached view start draft.old).sectors) (acts_of view draft.old.acts) (act_of view (Tells client (Grants number items))) → Follows view o start draft.new) }
{
    draft.desk.grant(client, lacking)?;
    draft.tell(client, Message::Grant { number, items })?;
    Ok(())
}

/// The items of a Grant, one for each token, in order.
fn items_for<D: PortDisk>(
    alloc: Global,
    draft: &Draft,
    port: &Port,
    disk: &mut D,
    client: ClientId,
    lacking: &[Token],
) -> Result<GrantItemList, ServeError>
    requires needs { AreNeeds draft.now.image lacking.now }
    requires lacks { All (λ need. not (is_shown draft.now.desk.collecting.table client need) ≡ true) lacking.now }
    ensures reads { OnlyReads (D.means disk.old) port.now.view (D.fault_count disk.old) result (D.means disk.new) (D.fault_count disk.new) }
    ensures items { IfOk result (AreAnswers draft.now port.now.view (D.means disk.old) client lacking.now) }
    ensures stops { IfErr result (λ error. (why : DiskRefusal) → error ≡ Refused why → list_any (reads_for (known draft.now []) client) lacking.now ≡ true) }
{
    let mut items = GrantItemList::new(alloc);
    for token in lacking {
        match item_for(alloc, draft, port, disk, client, *token) {
            Ok(item) => items.push(item)?,
            Err(error) => return Err(error),
        }
    }
    Ok(items)
}

/// The item of a token: it brings content where the client holds nothing in the class.
fn item_for<D: PortDisk>(
    alloc: Global,
    draft: &Draft,
    port: &Port,
    disk: &mut D,
    client: ClientId,
    token: Token,
) -> Result<GrantItem, ServeError>
    requires need { IsNeed draft.now.image token }
    requires lacks { not (is_shown draft.now.desk.collecting.table client token) ≡ true }
    ensures reads { OnlyReads (D.means disk.old) port.now.view (D.fault_count disk.old) result (D.means disk.new) (D.fault_count disk.new) }
    ensures item { IfOk result (Answers draft.now port.now.view (D.means disk.old) client token) }
    ensures stops { IfErr result (λ error. (why : DiskRefusal) → error ≡ Refused why → reads_for (known draft.now []) client token ≡ true) }
{
    let Token { ino, class, hold } = token;
    if is_held(draft, client, ino, class) {
        return Ok(GrantItem {
            ino,
            class,
            hold,
            fresh: false,
            content: Content::Nothing,
        });
    }
    match content_of(alloc, draft, port, disk, ino, class) {
        Ok(content) => Ok(GrantItem {
            ino,
            class,
            hold,
            fresh: true,
            content,
        }),
        Err(error) => Err(error),
    }
}

/// Whether a client holds something in a class on an inode.
fn is_held(draft: &Draft, client: ClientId, ino: Ino, class: Class) -> bool
    ensures held { result ≡ is_held (held_of draft.now.desk.collecting.table client ino class) }
    ensures table { IsTable draft.now.desk.collecting.table }
{
    table_of(draft).held(client, ino, class) != Hold::None
}

/// What a client has to know that comes to a hold in a class: with Names the entries, with Data the bytes, with
/// Attr the size.
fn content_of<D: PortDisk>(
    alloc: Global,
    draft: &Draft,
    port: &Port,
    disk: &mut D,
    ino: Ino,
    class: Class,
) -> Result<Content, ServeError>
    requires ino { ino.0 < limits.inodes }
    requires named { IsNamed draft.now.image ino class }
    ensures reads { OnlyReads (D.means disk.old) port.now.view (D.fault_count disk.old) result (D.means disk.new) (D.fault_count disk.new) }
    ensures content { IfOk result (λ content. AreNamed draft.now.image → (seat : ℕ) (start : ServerState) → SeesOwn start port.now.view (D.means disk.old) → IsFreshContent (known draft.now (reached seat start draft.now).sectors) ino class content) }
    ensures formed { IfOk result (range.IsFreshContent class) }
    ensures unread { IfOk result (λ content. MayRead draft.now class ino → (D.means disk.old).key ≡ port.now.view) }
    ensures stops { IfErr result (λ error. (why : DiskRefusal) → error ≡ Refused why → MayRead draft.now class ino) }
{
    match class {
        Class::Names => Ok(Content::Names(entries_of(alloc, &draft.image, ino)?)),
        Class::Data => match bytes_of(alloc, draft, port, disk, ino) {
            Ok(bytes) => Ok(Content::Bytes(bytes)),
            Err(error) => Err(error),
        },
        Class::Attr => Ok(Content::Size(draft.image.inode(ino).size)),
        Class::Open => Ok(Content::Nothing),
    }
}

/// The entries of a directory, as the law has them.
fn entries_of(alloc: Global, image: &Image, ino: Ino) -> Result<EntryList, Oom>
    requires { ino.0 < limits.inodes }
    ensures entries { IfOk result (λ entries. AreNamed image.now → is_directory (node_at (shown image.now) ino) ≡ true → AreEntriesOf (shown image.now) (node_at (shown image.now) ino) entries) }
    ensures formed { IfOk result AreEntries }
    ensures few { IfOk result (λ entries. length entries ≤ limits.directory_entries) }
{
    prove!(image.clients() <= CLIENTS);
    let entries = image.entries(alloc, ino)?;
    Ok(entries)
}

/// The bytes of a file as the acts so far leave them: they are read from the disk, and what the acts will write is
/// laid over.
fn bytes_of<D: PortDisk>(
    alloc: Global,
    draft: &Draft,
    port: &Port,
    disk: &mut D,
    ino: Ino,
) -> Result<Blob, ServeError>
    requires { ino.0 < limits.inodes }
    ensures reads { OnlyReads (D.means disk.old) port.now.view (D.fault_count disk.old) result (D.means disk.new) (D.fault_count disk.new) }
    ensures size { IfOk result (λ bytes. length bytes ≤ limits.file_size) }
    ensures bytes { IfOk result (λ bytes. (seat : ℕ) (start : ServerState) → SeesOwn start port.now.view (D.means disk.old) → AreBytes (reached seat start draft.now).sectors (inode_at draft.now.image.inodes ino.0) bytes) }
    ensures unread { IfOk result (λ bytes. is_in_blocks (known draft.now []) ino ≡ true → (D.means disk.old).key ≡ port.now.view) }
    ensures stops { IfErr result (λ error. (why : DiskRefusal) → error ≡ Refused why → is_in_blocks (known draft.now []) ino ≡ true) }
{
    let places = draft.places(alloc)?;
    let inode = draft.image.inode(ino);
    let mut bytes = Vec::with_capacity(alloc, inode.size as usize)?;
    match read_file_behind(&draft.image, port, disk, ino, places.as_slice(), &mut bytes) {
        Ok(()) => Ok(Blob::from_vec(bytes)),
        Err(refusal) => Err(ServeError::Refused(refusal)),
    }
}
