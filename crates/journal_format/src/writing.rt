// Entries, written as bytes.
ghost use Rattle.std.specs.Prelude.{◌≡◌, ◌++◌, ◌∷◌, [], IfOk, OnOk, OnErr};
ghost use Rattle.journal_format.specs.Bytes.{long, word, short, text, flag, kind_of, fields_of, bytes_of, IsLong, IsWord, IsShort, IsByte, IsName, IsWhat, IsEntry};

use plain_types::{Entry, What};
use snap_ids::{Name, NoMemory};
use std::alloc::{AllocError, Global};

fn put_long(out: &mut Vec<u8>, number: u64) -> Result<(), AllocError>
    ensures ok { OnOk result (out.new.items ≡ out.old.items ++ long number) }
    ensures within { IsLong number }
{
    out.extend_from_slice(&number.to_be_bytes())
}

fn put_word(out: &mut Vec<u8>, number: u32) -> Result<(), AllocError>
    ensures ok { OnOk result (out.new.items ≡ out.old.items ++ word number) }
    ensures within { IsWord number }
{
    out.extend_from_slice(&number.to_be_bytes())
}

fn put_short(out: &mut Vec<u8>, number: u16) -> Result<(), AllocError>
    ensures ok { OnOk result (out.new.items ≡ out.old.items ++ short number) }
    ensures within { IsShort number }
{
    out.extend_from_slice(&number.to_be_bytes())
}

fn put_byte(out: &mut Vec<u8>, number: u8) -> Result<(), AllocError>
    ensures ok { OnOk result (out.new.items ≡ out.old.items ++ number ∷ []) }
    ensures within { IsByte number }
{
    out.push(number)?;
    Ok(())
}

fn put_flag(out: &mut Vec<u8>, value: bool) -> Result<(), AllocError>
    ensures ok { OnOk result (out.new.items ≡ out.old.items ++ flag value) }
{
    if value {
        out.push(1)?;
    } else {
        out.push(0)?;
    }
    Ok(())
}

fn put_name(out: &mut Vec<u8>, name: &Name) -> Result<(), AllocError>
    ensures ok { OnOk result (out.new.items ≡ out.old.items ++ text name.now) }
    ensures within { IsName name.now }
{
    let bytes = name.as_bytes();
    out.push(bytes.len() as u8)?;
    out.extend_from_slice(bytes)
}

fn put_place(out: &mut Vec<u8>, dir: u64, name: &Name) -> Result<(), AllocError>
    ensures ok { OnOk result (out.new.items ≡ out.old.items ++ (long dir ++ text name.now)) }
    ensures within { OnOk result (IsLong dir × IsName name.now) }
{
    put_long(out, dir)?;
    put_name(out, name)?;
    Ok(())
}

fn put_mkdir(out: &mut Vec<u8>, dir: u64, name: &Name, ino: u64) -> Result<(), AllocError>
    ensures ok { OnOk result (out.new.items ≡ out.old.items ++ (long dir ++ (text name.now ++ long ino))) }
    ensures within { OnOk result (IsLong dir × (IsName name.now × IsLong ino)) }
{
    put_place(out, dir, name)?;
    put_long(out, ino)?;
    Ok(())
}

fn put_create(
    out: &mut Vec<u8>,
    dir: u64,
    name: &Name,
    ino: u64,
    mode: u16,
) -> Result<(), AllocError>
    ensures ok { OnOk result (out.new.items ≡ out.old.items
        ++ (long dir ++ (text name.now ++ (long ino ++ short mode)))) }
    ensures within { OnOk result (IsLong dir × (IsName name.now × (IsLong ino × IsShort mode))) }
{
    put_mkdir(out, dir, name, ino)?;
    put_short(out, mode)?;
    Ok(())
}

fn put_link(out: &mut Vec<u8>, first: u64, dir: u64, name: &Name) -> Result<(), AllocError>
    ensures ok { OnOk result (out.new.items ≡ out.old.items ++ (long first ++ (long dir ++ text name.now))) }
    ensures within { OnOk result (IsLong first × (IsLong dir × IsName name.now)) }
{
    put_long(out, first)?;
    put_long(out, dir)?;
    put_name(out, name)?;
    Ok(())
}

fn put_rename(
    out: &mut Vec<u8>,
    dir: u64,
    name: &Name,
    to_dir: u64,
    to_name: &Name,
) -> Result<(), AllocError>
    ensures ok { OnOk result (out.new.items ≡ out.old.items
        ++ (long dir ++ (text name.now ++ (long to_dir ++ text to_name.now)))) }
    ensures within { OnOk result (IsLong dir × (IsName name.now × (IsLong to_dir × IsName to_name.now))) }
{
    put_place(out, dir, name)?;
    put_place(out, to_dir, to_name)?;
    Ok(())
}

fn put_chmod(out: &mut Vec<u8>, ino: u64, mode: u16) -> Result<(), AllocError>
    ensures ok { OnOk result (out.new.items ≡ out.old.items ++ (long ino ++ short mode)) }
    ensures within { OnOk result (IsLong ino × IsShort mode) }
{
    put_long(out, ino)?;
    put_short(out, mode)?;
    Ok(())
}

fn put_open_file(out: &mut Vec<u8>, handle: u8, ino: u64, writable: bool) -> Result<(), AllocError>
    ensures ok { OnOk result (out.new.items ≡ out.old.items
        ++ ((handle ∷ []) ++ (long ino ++ flag writable))) }
    ensures within { OnOk result (IsByte handle × IsLong ino) }
{
    put_byte(out, handle)?;
    put_long(out, ino)?;
    put_flag(out, writable)?;
    Ok(())
}

fn put_release(out: &mut Vec<u8>, ino: u64, follows: u64, size: u32) -> Result<(), AllocError>
    ensures ok { OnOk result (out.new.items ≡ out.old.items ++ (long ino ++ (long follows ++ word size))) }
    ensures within { OnOk result (IsLong ino × (IsLong follows × IsWord size)) }
{
    put_long(out, ino)?;
    put_long(out, follows)?;
    put_word(out, size)?;
    Ok(())
}

fn put_settle(
    out: &mut Vec<u8>,
    ino: u64,
    follows: u64,
    upto: u64,
    size: u32,
) -> Result<(), AllocError>
    ensures ok { OnOk result (out.new.items ≡ out.old.items
        ++ (long ino ++ (long follows ++ (long upto ++ word size)))) }
    ensures within { OnOk result (IsLong ino × (IsLong follows × (IsLong upto × IsWord size))) }
{
    put_long(out, ino)?;
    put_long(out, follows)?;
    put_long(out, upto)?;
    put_word(out, size)?;
    Ok(())
}

fn kind_of(what: &What) -> u8
    ensures { result ≡ kind_of what.now }
{
    match what {
        What::Mkdir { .. } => 1,
        What::Create { .. } => 2,
        What::Link { .. } => 3,
        What::Unlink { .. } => 4,
        What::Rmdir { .. } => 5,
        What::Rename { .. } => 6,
        What::Chmod { .. } => 7,
        What::OpenFile { .. } => 8,
        What::CloseFile { .. } => 9,
        What::PrepareCreate { .. } => 10,
        What::Mksnap { .. } => 11,
        What::PrepareDestroy { .. } => 12,
        What::Rmsnap { .. } => 13,
        What::Rollback { .. } => 14,
        What::Settle { .. } => 15,
        What::Release { .. } => 16,
        What::Trim { .. } => 17,
        What::Purgedone { .. } => 18,
        What::Deadfile { .. } => 19,
        What::Barrier { .. } => 20,
    }
}

fn put_fields(out: &mut Vec<u8>, what: &What) -> Result<(), AllocError>
    ensures ok { OnOk result (out.new.items ≡ out.old.items ++ fields_of what.now) }
    ensures within { OnOk result (IsWhat what.now) }
{
    match what {
        What::Mkdir { dir, name, ino } => put_mkdir(out, dir.0, name, ino.0),
        What::Create {
            dir,
            name,
            ino,
            mode,
        } => put_create(out, dir.0, name, ino.0, *mode),
        What::Link { ino, dir, name } => put_link(out, ino.0, dir.0, name),
        What::Unlink { dir, name } => put_place(out, dir.0, name),
        What::Rmdir { dir, name } => put_place(out, dir.0, name),
        What::Rename {
            dir,
            name,
            to_dir,
            to_name,
        } => put_rename(out, dir.0, name, to_dir.0, to_name),
        What::Chmod { ino, mode } => put_chmod(out, ino.0, *mode),
        What::OpenFile {
            handle,
            ino,
            writable,
        } => put_open_file(out, *handle, ino.0, *writable),
        What::CloseFile { handle } => put_byte(out, *handle),
        What::PrepareCreate { id } => put_long(out, id.0),
        What::Mksnap { id, dir, name } => put_link(out, id.0, dir.0, name),
        What::PrepareDestroy { id } => put_long(out, id.0),
        What::Rmsnap { id } => put_long(out, id.0),
        What::Rollback { id } => put_long(out, id.0),
        What::Settle {
            ino,
            follows,
            upto,
            size,
        } => put_settle(out, ino.0, follows.0, upto.0, *size),
        What::Release { ino, follows, size } => put_release(out, ino.0, follows.0, *size),
        What::Trim { id } => put_long(out, id.0),
        What::Purgedone { id } => put_long(out, id.0),
        What::Deadfile { ino } => put_long(out, ino.0),
        What::Barrier { number } => put_long(out, *number),
    }
}

fn put_entry(out: &mut Vec<u8>, entry: &Entry) -> Result<(), AllocError>
    ensures ok { OnOk result (out.new.items ≡ out.old.items ++ bytes_of entry.now) }
    ensures within { OnOk result (IsEntry entry.now) }
{
    put_byte(out, kind_of(&entry.what))?;
    put_byte(out, entry.client)?;
    put_long(out, entry.number)?;
    put_fields(out, &entry.what)?;
    Ok(())
}

/// Appends the bytes of an entry: its kind and its client, a byte each, its number, and the fields of what it says.
/// Numbers are big-endian and as wide as their types, a name has a byte with its length in front, and a flag is 0
/// or 1. Where there is no memory, nothing is appended.
pub fn encode(alloc: Global, entry: &Entry, out: &mut Vec<u8>) -> Result<(), NoMemory>
    ensures ok { OnOk result (out.new.items ≡ out.old.items ++ bytes_of entry.now) }
    ensures err { OnErr result (out.new.items ≡ out.old.items) }
    // The entry is one of those that `decode` reads.
    ensures within { OnOk result (IsEntry entry.now) }
{
    let mut bytes = Vec::new(alloc);
    put_entry(&mut bytes, entry)?;
    out.extend_from_slice(&bytes)?;
    Ok(())
}
