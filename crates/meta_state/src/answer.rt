// Answers to queries.
ghost use Rattle.std.specs.Prelude.{◌≡◌, false, true, List, IfErr, IfOk};
ghost use Rattle.snap_ids.specs.Path.{place_of};
ghost use Rattle.snap_ids.specs.declared.values.Kind.TheVariants.{Dir, File as Plain};
ghost use Rattle.plain_types.specs.declared.answer.Answer.TheVariants.{FoundLive, FoundObject, FoundSnap, Listed, RealmIs, Refused, StatDir, StatFile};
ghost use Rattle.plain_types.specs.declared.answer.Refusal.TheVariants.{IsDir, NotDir};
ghost use Rattle.plain_types.specs.declared.entry.Entry.{Entry};
ghost use Rattle.plain_tree.specs.Query.{answered, file_in, list_answer, listed_snaps, live_only};
ghost use Rattle.plain_tree.specs.State.{listing};
ghost use Rattle.plain_journal.specs.Answers.{answer_to, cat_found, found, live_answer, stat_found};
ghost use Rattle.plain_journal.specs.Coverage.{context};
ghost use Rattle.plain_journal.specs.Entries.{state_after, tree_at};
ghost use Rattle.plain_journal.specs.Realms.{realm_at, shown};
ghost use Rattle.dentry_tree.specs.Dentries.{entries_at, kind_of};
ghost use Rattle.meta_state.specs.Queries.{HasDirectory, HasInode, IsFoundPast, IsGiven, IsPast, IsTold, takes_memory};
ghost use Rattle.meta_state.specs.Stands.{IsState, StandsFor};

use crate::find::{Found, Reached};
use crate::state::MetaState;
use inode_versions::Attr;
use plain_types::{Answer, Query, Refusal};
use snap_ids::{Ino, Kind, NOSNAP, NoMemory, Path, SnapId, Target};

// What `stat` says of a directory or a file.
fn stat_of(attr: Attr) -> Answer
    ensures { result ≡ elim attr.kind [ Dir ↦ StatDir attr.mode | Plain ↦ StatFile attr.mode attr.size ] }
{
    match attr.kind {
        Kind::Dir => Answer::StatDir(attr.mode),
        Kind::File => Answer::StatFile(attr.mode, attr.size),
    }
}

// What a live file is found as: its bytes come with a capability.
fn found_live(ino: Ino, attr: Attr) -> Answer
    ensures { result ≡ FoundLive ino attr.mode attr.size false }
{
    Answer::FoundLive {
        ino,
        perm: attr.mode,
        size: attr.size,
        write_held: false,
    }
}

// What a live `stat` says: a file is found, since its size comes with a capability.
fn live_stat(ino: Ino, attr: Attr) -> Answer
    ensures { result ≡ elim attr.kind [ Dir ↦ StatDir attr.mode | Plain ↦ FoundLive ino attr.mode attr.size false ] }
{
    match attr.kind {
        Kind::Dir => Answer::StatDir(attr.mode),
        Kind::File => found_live(ino, attr),
    }
}

// What a live `cat` says.
fn live_cat(ino: Ino, attr: Attr) -> Answer
    ensures { result ≡ elim attr.kind [ Dir ↦ Refused IsDir | Plain ↦ FoundLive ino attr.mode attr.size false ] }
{
    match attr.kind {
        Kind::Dir => Answer::Refused(Refusal::IsDir),
        Kind::File => found_live(ino, attr),
    }
}

// What `cat` under `.snap` says: a file is found with its size there.
fn snap_cat(found: Found) -> Answer
    ensures { result ≡ elim found.attr.kind [ Dir ↦ Refused IsDir | Plain ↦ FoundSnap found.ino found.snap found.attr.size ] }
{
    match found.attr.kind {
        Kind::Dir => Answer::Refused(Refusal::IsDir),
        Kind::File => Answer::FoundSnap {
            ino: found.ino,
            snap: found.snap,
            size: found.attr.size,
        },
    }
}

impl MetaState {
    /// The answer to a query after the entries, with a file's size as flushes settled it. A live file is found, and its
    /// bytes come with a capability; a file in a snapshot is found with its size there, which is known for good where each
    /// flush of it came when all ids that it names were made. It fails only with `NoMemory`: `stat`, `cat` and `clones` take
    /// no memory, and a query that is refused takes none.
    pub fn answer(&self, query: &Query) -> Result<Answer, NoMemory>
        requires state { IsState self.now }
        ensures answered { IfOk result (λ answer. (entries : List Entry) → StandsFor self.now entries
            → IsPast entries query.now → answer ≡ answer_to entries query.now) }
        ensures memory { IfErr result (λ error. takes_memory query.now ≡ true) }
        ensures given { IfErr result (λ error. (entries : List Entry) → StandsFor self.now entries
            → IsGiven (answer_to entries query.now)) }
    {
        match query {
            Query::List { path } => self.list(path),
            Query::Stat { path } => Ok(self.stat(path)),
            Query::Cat { path } => Ok(self.cat(path)),
            Query::Realm { path } => self.realm(path),
            Query::Clones { path, index } => Ok(self.clones(path, *index)),
        }
    }

    // `stat` of a path.
    fn stat(&self, path: &Path) -> Answer
        requires state { IsState self.now }
        ensures { (entries : List Entry) → StandsFor self.now entries → IsFoundPast entries (found entries path.now)
            → result ≡ answered (found entries path.now) (stat_found entries) }
    {
        match self.reach(path) {
            Ok(Reached::Live(ino)) => live_stat(ino, self.now_at(ino)),
            Ok(Reached::Snaps(dir)) => stat_of(self.now_at(dir)),
            Ok(Reached::InSnap(found)) => stat_of(found.attr),
            Err(refusal) => Answer::Refused(refusal),
        }
    }

    // `cat` of a path.
    fn cat(&self, path: &Path) -> Answer
        requires state { IsState self.now }
        ensures { (entries : List Entry) → StandsFor self.now entries → IsFoundPast entries (found entries path.now)
            → result ≡ answered (found entries path.now) (cat_found entries) }
    {
        match self.reach(path) {
            Ok(Reached::Live(ino)) => live_cat(ino, self.now_at(ino)),
            Ok(Reached::Snaps(_)) => Answer::Refused(Refusal::IsDir),
            Ok(Reached::InSnap(found)) => snap_cat(found),
            Err(refusal) => Answer::Refused(refusal),
        }
    }

    // `ls` of an inode at an id.
    fn list_at(&self, ino: Ino, s: SnapId) -> Result<Answer, NoMemory>
        ensures { IsTold result (elim (kind_of self.now.names ino) [
          | Dir ↦ Listed (listing (kind_of self.now.names) (entries_at s self.now.names) ino)
          | Plain ↦ Refused NotDir
        ]) }
    {
        match self.names.kind_of(ino) {
            Kind::Dir => match self.names.list(ino, s) {
                Ok(entries) => Ok(Answer::Listed(entries)),
                Err(_) => Err(NoMemory),
            },
            Kind::File => Ok(Answer::Refused(Refusal::NotDir)),
        }
    }

    // `ls` of the snapshots that a directory shows.
    fn list_snaps(&self, dir: Ino) -> Result<Answer, NoMemory>
        requires directory { HasDirectory self.now dir }
        ensures { (entries : List Entry) → StandsFor self.now entries
            → IsTold result (Listed (listed_snaps (shown entries dir))) }
    {
        match self.realms.names(dir) {
            Ok(entries) => Ok(Answer::Listed(entries)),
            Err(_) => Err(NoMemory),
        }
    }

    // `ls` of a path.
    fn list(&self, path: &Path) -> Result<Answer, NoMemory>
        requires state { IsState self.now }
        ensures { (entries : List Entry) → StandsFor self.now entries → IsTold result
            (answered (found entries path.now) (list_answer (shown entries) (tree_at entries) (state_after entries))) }
    {
        match self.reach(path) {
            Ok(Reached::Live(ino)) => self.list_at(ino, NOSNAP),
            Ok(Reached::Snaps(dir)) => self.list_snaps(dir),
            Ok(Reached::InSnap(found)) => self.list_at(found.ino, found.snap),
            Err(refusal) => Ok(Answer::Refused(refusal)),
        }
    }

    // The live inode at the end of a path; under `.snap` there is none.
    fn live_at(&self, path: &Path) -> Result<Ino, Refusal>
        ensures { (entries : List Entry) → StandsFor self.now entries
            → live_only (state_after entries) (place_of path.now) ≡ result }
    {
        match path.target() {
            Target::Live(names) => self.live(names),
            _ => Err(Refusal::NoEntry),
        }
    }

    // The realm that contains an inode, and the inode's context.
    fn realm_of(&self, ino: Ino) -> Result<Answer, NoMemory>
        requires there { HasInode self.now ino }
        ensures { (entries : List Entry) → StandsFor self.now entries
            → IsTold result (RealmIs (realm_at entries ino) (context entries ino)) }
    {
        match self.realms.context(ino) {
            Ok(context) => Ok(Answer::RealmIs(self.realms.realm_of(ino), context)),
            Err(_) => Err(NoMemory),
        }
    }

    // `realm` of a path.
    fn realm(&self, path: &Path) -> Result<Answer, NoMemory>
        requires state { IsState self.now }
        ensures { (entries : List Entry) → StandsFor self.now entries → IsTold result
            (live_answer (live_only (state_after entries) (place_of path.now))
            (λ ino. RealmIs (realm_at entries ino) (context entries ino))) }
    {
        match self.live_at(path) {
            Ok(ino) => self.realm_of(ino),
            Err(refusal) => Ok(Answer::Refused(refusal)),
        }
    }

    // `clones` of a path.
    fn clones(&self, path: &Path, index: u32) -> Answer
        ensures { (entries : List Entry) → StandsFor self.now entries
            → result ≡ live_answer (live_only (state_after entries) (place_of path.now))
            (λ ino. file_in (state_after entries) ino (FoundObject ino index)) }
    {
        match self.live_at(path) {
            Ok(ino) => match self.names.kind_of(ino) {
                Kind::Dir => Answer::Refused(Refusal::IsDir),
                Kind::File => Answer::FoundObject { ino, index },
            },
            Err(refusal) => Answer::Refused(refusal),
        }
    }
}
