// What an entry says, read from the front of bytes by its kind.
ghost use Rattle.std.specs.Prelude.{◌≡◌, ◌<◌, Some, None, Option, IfOk};
ghost use Rattle.journal_format.specs.Reading.{Gives, mkdir_at, create_at, link_at, unlink_at, rmdir_at, rename_at, chmod_at, open_file_at, close_file_at, mksnap_at, settle_at, release_at, numbered, one_at, what_at};

use crate::fields::{take_byte, take_flag, take_name, take_u16, take_u32, take_u64};
use crate::unread::Unread;
use plain_types::What;
use snap_ids::{Ino, SnapId};
use std::alloc::Global;

#[tactic(auto, unfolding(crate::specs::Reading::mkdir_at))]
fn take_mkdir(alloc: Global, bytes: &[u8]) -> Result<(What, &[u8]), Unread>
    ensures { Gives (λ x. (x.0, x.1.now)) result (mkdir_at bytes.now) }
{
    let (dir, rest) = take_u64(bytes)?;
    let (name, rest) = take_name(alloc, rest)?;
    let (ino, rest) = take_u64(rest)?;
    let what = What::Mkdir {
        dir: Ino(dir),
        name,
        ino: Ino(ino),
    };
    Ok((what, rest))
}

#[tactic(auto, unfolding(crate::specs::Reading::create_at))]
fn take_create(alloc: Global, bytes: &[u8]) -> Result<(What, &[u8]), Unread>
    ensures { Gives (λ x. (x.0, x.1.now)) result (create_at bytes.now) }
{
    let (dir, rest) = take_u64(bytes)?;
    let (name, rest) = take_name(alloc, rest)?;
    let (ino, rest) = take_u64(rest)?;
    let (mode, rest) = take_u16(rest)?;
    let what = What::Create {
        dir: Ino(dir),
        name,
        ino: Ino(ino),
        mode,
    };
    Ok((what, rest))
}

#[tactic(auto, unfolding(crate::specs::Reading::link_at))]
fn take_link(alloc: Global, bytes: &[u8]) -> Result<(What, &[u8]), Unread>
    ensures { Gives (λ x. (x.0, x.1.now)) result (link_at bytes.now) }
{
    let (ino, rest) = take_u64(bytes)?;
    let (dir, rest) = take_u64(rest)?;
    let (name, rest) = take_name(alloc, rest)?;
    let what = What::Link {
        ino: Ino(ino),
        dir: Ino(dir),
        name,
    };
    Ok((what, rest))
}

#[tactic(auto, unfolding(crate::specs::Reading::unlink_at))]
fn take_unlink(alloc: Global, bytes: &[u8]) -> Result<(What, &[u8]), Unread>
    ensures { Gives (λ x. (x.0, x.1.now)) result (unlink_at bytes.now) }
{
    let (dir, rest) = take_u64(bytes)?;
    let (name, rest) = take_name(alloc, rest)?;
    let what = What::Unlink {
        dir: Ino(dir),
        name,
    };
    Ok((what, rest))
}

#[tactic(auto, unfolding(crate::specs::Reading::rmdir_at))]
fn take_rmdir(alloc: Global, bytes: &[u8]) -> Result<(What, &[u8]), Unread>
    ensures { Gives (λ x. (x.0, x.1.now)) result (rmdir_at bytes.now) }
{
    let (dir, rest) = take_u64(bytes)?;
    let (name, rest) = take_name(alloc, rest)?;
    let what = What::Rmdir {
        dir: Ino(dir),
        name,
    };
    Ok((what, rest))
}

#[tactic(auto, unfolding(crate::specs::Reading::rename_at))]
fn take_rename(alloc: Global, bytes: &[u8]) -> Result<(What, &[u8]), Unread>
    ensures { Gives (λ x. (x.0, x.1.now)) result (rename_at bytes.now) }
{
    let (dir, rest) = take_u64(bytes)?;
    let (name, rest) = take_name(alloc, rest)?;
    let (to_dir, rest) = take_u64(rest)?;
    let (to_name, rest) = take_name(alloc, rest)?;
    let what = What::Rename {
        dir: Ino(dir),
        name,
        to_dir: Ino(to_dir),
        to_name,
    };
    Ok((what, rest))
}

#[tactic(auto, unfolding(crate::specs::Reading::chmod_at))]
fn take_chmod(bytes: &[u8]) -> Result<(What, &[u8]), Unread>
    ensures { Gives (λ x. (x.0, x.1.now)) result (chmod_at bytes.now) }
{
    let (ino, rest) = take_u64(bytes)?;
    let (mode, rest) = take_u16(rest)?;
    let what = What::Chmod {
        ino: Ino(ino),
        mode,
    };
    Ok((what, rest))
}

#[tactic(auto, unfolding(crate::specs::Reading::open_file_at))]
fn take_open_file(bytes: &[u8]) -> Result<(What, &[u8]), Unread>
    ensures { Gives (λ x. (x.0, x.1.now)) result (open_file_at bytes.now) }
{
    let (handle, rest) = take_byte(bytes)?;
    let (ino, rest) = take_u64(rest)?;
    let (writable, rest) = take_flag(rest)?;
    let what = What::OpenFile {
        handle,
        ino: Ino(ino),
        writable,
    };
    Ok((what, rest))
}

#[tactic(auto, unfolding(crate::specs::Reading::close_file_at))]
fn take_close_file(bytes: &[u8]) -> Result<(What, &[u8]), Unread>
    ensures { Gives (λ x. (x.0, x.1.now)) result (close_file_at bytes.now) }
{
    let (handle, rest) = take_byte(bytes)?;
    Ok((What::CloseFile { handle }, rest))
}

#[tactic(auto, unfolding(crate::specs::Reading::mksnap_at))]
fn take_mksnap(alloc: Global, bytes: &[u8]) -> Result<(What, &[u8]), Unread>
    ensures { Gives (λ x. (x.0, x.1.now)) result (mksnap_at bytes.now) }
{
    let (id, rest) = take_u64(bytes)?;
    let (dir, rest) = take_u64(rest)?;
    let (name, rest) = take_name(alloc, rest)?;
    let what = What::Mksnap {
        id: SnapId(id),
        dir: Ino(dir),
        name,
    };
    Ok((what, rest))
}

#[tactic(auto, unfolding(crate::specs::Reading::settle_at))]
fn take_settle(bytes: &[u8]) -> Result<(What, &[u8]), Unread>
    ensures { Gives (λ x. (x.0, x.1.now)) result (settle_at bytes.now) }
{
    let (ino, rest) = take_u64(bytes)?;
    let (follows, rest) = take_u64(rest)?;
    let (upto, rest) = take_u64(rest)?;
    let (size, rest) = take_u32(rest)?;
    let what = What::Settle {
        ino: Ino(ino),
        follows: SnapId(follows),
        upto: SnapId(upto),
        size,
    };
    Ok((what, rest))
}

#[tactic(auto, unfolding(crate::specs::Reading::release_at))]
fn take_release(bytes: &[u8]) -> Result<(What, &[u8]), Unread>
    ensures { Gives (λ x. (x.0, x.1.now)) result (release_at bytes.now) }
{
    let (ino, rest) = take_u64(bytes)?;
    let (follows, rest) = take_u64(rest)?;
    let (size, rest) = take_u32(rest)?;
    let what = What::Release {
        ino: Ino(ino),
        follows: SnapId(follows),
        size,
    };
    Ok((what, rest))
}

// An entry of one number.
fn numbered(kind: u8, number: u64) -> Result<What, Unread>
    ensures { Gives (λ what. what) result (numbered kind number) }
{
    match kind {
        10 => Ok(What::PrepareCreate { id: SnapId(number) }),
        12 => Ok(What::PrepareDestroy { id: SnapId(number) }),
        13 => Ok(What::Rmsnap { id: SnapId(number) }),
        14 => Ok(What::Rollback { id: SnapId(number) }),
        17 => Ok(What::Trim { id: SnapId(number) }),
        18 => Ok(What::Purgedone { id: SnapId(number) }),
        19 => Ok(What::Deadfile { ino: Ino(number) }),
        20 => Ok(What::Barrier { number }),
        _ => Err(Unread::Malformed),
    }
}

#[tactic(auto, unfolding(crate::specs::Reading::one_at))]
fn take_one(kind: u8, bytes: &[u8]) -> Result<(What, &[u8]), Unread>
    ensures { Gives (λ x. (x.0, x.1.now)) result (one_at kind bytes.now) }
{
    let (number, rest) = take_u64(bytes)?;
    let what = numbered(kind, number)?;
    Ok((what, rest))
}

// What an entry of this kind says.
pub fn take_what(alloc: Global, kind: u8, bytes: &[u8]) -> Result<(What, &[u8]), Unread>
    ensures { Gives (λ x. (x.0, x.1.now)) result (what_at kind bytes.now) }
{
    match kind {
        1 => take_mkdir(alloc, bytes),
        2 => take_create(alloc, bytes),
        3 => take_link(alloc, bytes),
        4 => take_unlink(alloc, bytes),
        5 => take_rmdir(alloc, bytes),
        6 => take_rename(alloc, bytes),
        7 => take_chmod(bytes),
        8 => take_open_file(bytes),
        9 => take_close_file(bytes),
        11 => take_mksnap(alloc, bytes),
        15 => take_settle(bytes),
        16 => take_release(bytes),
        _ => take_one(kind, bytes),
    }
}
