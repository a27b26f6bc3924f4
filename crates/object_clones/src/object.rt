// An object: its head and its clones.
ghost use Rattle.std.specs.Prelude.{◌≡◌, ◌+◌, ◌<◌, ◌^◌, ◌++◌, ℕ, false, nat_le, None, Some, length, map, IfOk, OnOk};
ghost use Rattle.std.specs.Option.{option_map, option_copied, option_to_list};
ghost use Rattle.std.specs.List.{find};
ghost use Rattle.snap_ids.specs.declared.id.SnapId.{SnapId};
ghost use Rattle.snap_ids.specs.Context.{is_listed};
ghost use Rattle.object_clones.specs.Purged.{has};
ghost use Rattle.object_clones.specs.Objects.{IsSmall, IsLeft, plain, blank, news, head_written, head_cut, head_deleted, change_of, next, changed, purged, purged_clones, bytes_at_snap, list_of, kept, without, serves_some};

use crate::extents::Extents;
use crate::purged::Purged;
use snap_ids::{CloneList, Clones, Ids, ListOf, NoMemory, SnapContext, SnapId};
use std::alloc::{AllocError, Global};
use std::mem;

/// What a message does to the bytes of a file.
#[derive(Clone, Copy)]
pub(crate) enum Edit<'a> {
    Write { offset: u32, bytes: &'a [u8] },
    Cut { length: u32 },
    Delete,
}

/// The bytes that an object had, for the snapshots that are listed.
#[derive(Drop)]
pub(crate) struct Saved {
    id: SnapId,
    ids: Vec<SnapId>,
    bytes: Extents,
}

/// What an edit does to an object that it touches: the ids that are news to the object, and its head afterwards.
#[derive(Drop)]
pub(crate) struct Change {
    ids: Vec<SnapId>,
    head: Option<Extents>,
}

/// The newest clone stands apart, so that room for it can be made before anything changes.
#[derive(Drop)]
pub(crate) struct Object {
    seq: SnapId,
    head: Option<Extents>,
    older: Vec<Saved>,
    newest: Option<Saved>,
}

impl Saved {
    // Takes an id out of the list.
    fn purge(&mut self, s: SnapId)
        ensures { kept self.new ≡ without s (kept self.old) }
    {
        self.ids.retain(|id| id.0 != s.0);
    }

    // The clone as it is listed.
    fn listed(&self, alloc: Global) -> Result<(SnapId, Ids), NoMemory>
        ensures { IfOk result (λ listed. listed ≡ (self.now.id, self.now.ids.items)) }
    {
        let ids = Vec::from_slice(alloc, &self.ids)?;
        Ok((self.id, ListOf::from_vec(ids)))
    }

    // Whether there are ids in the list.
    fn serves_some(&self) -> bool
        ensures { result ≡ serves_some (kept self.now) }
    {
        !self.ids.is_empty()
    }

    // Whether an id is in the list.
    fn serves(&self, s: SnapId) -> bool
        ensures { result ≡ is_listed s self.now.ids.items }
    {
        self.ids.iter().any(|id| id.0 == s.0)
    }
}

// The head after a write, where a byte falls in the object, which has the file's bytes from `low` on.
fn written(
    alloc: Global,
    head: &Option<Extents>,
    low: usize,
    size: usize,
    offset: usize,
    bytes: &[u8],
) -> Result<Option<Option<Extents>>, AllocError>
    requires small { offset + length bytes.now < 2 ^ 32 }
    requires near { low + size < 2 ^ 62 }
    ensures { IfOk result (λ after. after ≡ head_written low size offset bytes.now head.now) }
{
    let from = low.max(offset);
    let upto = (low + size).min(offset + bytes.len());
    if upto <= from {
        return Ok(None);
    }
    let part = &bytes[from - offset..upto - offset];
    let place = (from - low) as u32;
    let head = match head {
        Some(head) => head.written(alloc, place, part)?,
        None => Extents::new(alloc).written(alloc, place, part)?,
    };
    Ok(Some(Some(head)))
}

// The head after a cut, where it reaches past the new length.
fn cut(
    alloc: Global,
    head: &Option<Extents>,
    low: usize,
    length: usize,
) -> Result<Option<Option<Extents>>, AllocError>
    requires near { low < 2 ^ 62 }
    ensures { IfOk result (λ after. after ≡ head_cut low length head.now) }
{
    let head = match head {
        Some(head) => head,
        None => return Ok(None),
    };
    if low + head.len() as usize <= length {
        return Ok(None);
    }
    if length <= low {
        return Ok(Some(None));
    }
    let head = head.cut(alloc, (length - low) as u32)?;
    Ok(Some(Some(head)))
}

// The head after a delete, where there was one.
fn deleted(head: &Option<Extents>) -> Option<Option<Extents>>
    ensures { result ≡ head_deleted head.now }
{
    match head {
        Some(_) => Some(None),
        None => None,
    }
}

// Takes an id out of all lists, and drops the clones whose lists are empty then.
fn purge_all(clones: &mut Vec<Saved>, s: SnapId)
    ensures { map kept clones.new.items ≡ purged_clones s (map kept clones.old.items) }
{
    for saved in clones.iter_mut() {
        saved.purge(s);
    }
    clones.retain(|saved| saved.serves_some());
}

// The same of one clone.
fn purged_clone(clone: Option<Saved>, s: SnapId) -> Option<Saved>
    ensures { option_to_list (option_map kept result)
        ≡ purged_clones s (option_to_list (option_map kept clone)) }
{
    let mut saved = clone?;
    saved.purge(s);
    if saved.serves_some() {
        Some(saved)
    } else {
        None
    }
}

impl Object {
    /// An object that never was.
    pub(crate) fn new(alloc: Global) -> Object
        ensures blank { plain result ≡ blank }
        ensures room { result.newest ≡ None }
    {
        Object {
            seq: SnapId(0),
            head: None,
            older: Vec::new(alloc),
            newest: None,
        }
    }

    // The ids of a context that are news, and weren't purged.
    fn news(
        &self,
        alloc: Global,
        context: &SnapContext,
        purged: &Purged,
    ) -> Result<Vec<SnapId>, AllocError>
        ensures { IfOk result (λ ids. ids.items ≡ news (has purged.now) self.now.seq.0 context.now) }
    {
        let mut ids = Vec::new(alloc);
        for id in context.ids() {
            if self.seq < *id && !purged.has(*id) {
                ids.push(*id)?;
            }
        }
        Ok(ids)
    }

    /// What an edit will do to the object, where it touches it. The object has so many of the file's bytes from `low` on.
    pub(crate) fn change(
        &self,
        alloc: Global,
        low: usize,
        size: usize,
        edit: Edit<'_>,
        context: &SnapContext,
        purged: &Purged,
    ) -> Result<Option<Change>, NoMemory>
        requires small { IsSmall edit }
        requires near { low + size < 2 ^ 62 }
        ensures { IfOk result (λ change. option_map next change
            ≡ change_of (has purged.now) low size edit.entry context.now (plain self.now)) }
    {
        let after = match edit {
            Edit::Write { offset, bytes } => {
                written(alloc, &self.head, low, size, offset as usize, bytes)?
            }
            Edit::Cut { length } => cut(alloc, &self.head, low, length as usize)?,
            Edit::Delete => deleted(&self.head),
        };
        let head = match after {
            Some(head) => head,
            None => return Ok(None),
        };
        let ids = self.news(alloc, context, purged)?;
        Ok(Some(Change { ids, head }))
    }

    /// The ids that a change's clone of the head will list.
    pub(crate) fn clone_ids<'a>(&self, change: &'a Change) -> &'a [SnapId]
        ensures { (seq : ℕ) (s : SnapId) → is_listed s result.now ≡ false → IsLeft s (plain self.now)
            → IsLeft s (changed seq (Some (next change.now)) (plain self.now)) }
    {
        if self.head.is_some() {
            &change.ids
        } else {
            &[]
        }
    }

    /// Makes room for one more clone.
    pub(crate) fn make_room(&mut self) -> Result<(), NoMemory>
        ensures same { plain self.new ≡ plain self.old }
        ensures room { OnOk result (self.new.newest ≡ None) }
        ensures keeps { self.old.newest ≡ None → self.new.newest ≡ None }
    {
        if let Some(saved) = self.newest.take() {
            if let Err(refused) = self.older.push(saved) {
                self.newest = Some(refused.value);
                return Err(NoMemory);
            }
        }
        Ok(())
    }

    /// Carries a change out, for which there is room.
    pub(crate) fn carry_out(&mut self, seq: SnapId, change: Change)
        requires { self.old.newest ≡ None }
        ensures { plain self.new ≡ changed seq.0 (Some (next change)) (plain self.old) }
    {
        let Change { ids, head } = change;
        let old = mem::replace(&mut self.head, head);
        if let Some(bytes) = old
            && let Some(first) = ids.first()
        {
            let id = *first;
            self.newest = Some(Saved { id, ids, bytes });
        }
        self.seq = self.seq.max(seq);
    }

    /// The bytes of the head.
    pub(crate) fn head(&self) -> Option<&Extents>
        ensures { option_copied result ≡ (plain self.now).head }
    {
        self.head.as_ref()
    }

    // The first clone whose id isn't below a snapshot's.
    fn clone_at(&self, s: SnapId) -> Option<&Saved>
        ensures { option_copied result ≡ find (λ saved. nat_le s.0 saved.id.0)
            (self.now.older.items ++ option_to_list self.now.newest) }
    {
        for saved in &self.older {
            if s.0 <= saved.id.0 {
                return Some(saved);
            }
        }
        match &self.newest {
            Some(saved) => if s.0 <= saved.id.0 { Some(saved) } else { None },
            None => None,
        }
    }

    /// The bytes at a snapshot.
    pub(crate) fn bytes_at(&self, s: SnapId) -> Option<&Extents>
        ensures { option_copied result ≡ bytes_at_snap s (plain self.now) }
    {
        if self.seq.0 < s.0 {
            return self.head.as_ref();
        }
        match self.clone_at(s) {
            Some(saved) => if saved.serves(s) {
                Some(&saved.bytes)
            } else {
                None
            },
            None => None,
        }
    }

    // The clones with the ids that they serve.
    fn listed_clones(&self, alloc: Global) -> Result<Clones, NoMemory>
        ensures { IfOk result (λ clones. clones ≡ (list_of (plain self.now)).clones) }
    {
        let mut clones = ListOf::new(alloc);
        for saved in &self.older {
            clones.push(saved.listed(alloc)?)?;
        }
        if let Some(saved) = &self.newest {
            clones.push(saved.listed(alloc)?)?;
        }
        Ok(clones)
    }

    // How long the head is.
    fn head_length(&self) -> Option<u32>
        ensures { result ≡ option_map length self.now.head }
    {
        match &self.head {
            Some(head) => Some(head.len()),
            None => None,
        }
    }

    /// The clones and the head's length.
    pub(crate) fn listed(&self, alloc: Global) -> Result<CloneList, NoMemory>
        ensures { IfOk result (λ list. list ≡ list_of (plain self.now)) }
    {
        let clones = self.listed_clones(alloc)?;
        let head = self.head_length();
        Ok(CloneList { clones, head })
    }

    /// Takes an id out of all lists, and drops the clones whose lists are empty then.
    pub(crate) fn purge(&mut self, s: SnapId)
        ensures { plain self.new ≡ purged s (plain self.old) }
    {
        purge_all(&mut self.older, s);
        self.newest = purged_clone(self.newest.take(), s);
    }
}
