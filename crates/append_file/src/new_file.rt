//! A new append file, written as a draft first: under a name that is free, or in an old file's place.

ghost use Rattle.std.specs.Prelude.{◌≡◌, ◌^◌, ◌-◌, None, length, min, IfOk};
ghost use Rattle.append_log.specs.Dump.{dump};
ghost use Rattle.append_file.specs.declared.new_file.NewFileFault.TheVariants as new_file_faults;

use crate::file_sink::{FileFault, FileSink, LockFile, is_named_by};
use crate::opening::sync_folder;
use append_log::{RewriteFault, rewrite};
use sorted_sets::OneOwner;
use std::alloc::Allocator;
use std::fs::{self, Files, OpenFile, OpenOptions};
use std::hash::BuildHasher;
use thiserror::Error;

/// Why there is no new append file, or none in an old one's place.
#[derive(Clone, Copy, Debug, PartialEq, Eq, Error)]
pub enum NewFileFault {
    /// The new file or its draft can't be used.
    #[error("{0}")]
    File(FileFault),
    /// The records could not be written.
    #[error("{0}")]
    Rewrite(RewriteFault),
}

impl From<FileFault> for NewFileFault {
    ghost from_gives = { λ cause fault. fault ≡ new_file_faults.File cause };

    fn from(cause: FileFault) -> NewFileFault {
        NewFileFault::File(cause)
    }
}

/// Locks a draft alone, under its name. One that has another name was somebody else's draft.
fn hold_draft<R: Files>(rt: &R, file: &R::File, draft: &str) -> Result<(), FileFault>
where
    R::File: LockFile,
{
    file.hold_alone()?;
    if is_named_by(file, fs::symlink_metadata(rt, draft)) {
        Ok(())
    } else {
        Err(FileFault::Locked)
    }
}

/// Takes an old draft away, where there is one that nobody holds. It is not emptied: where a rewrite
/// was killed at its end, the new file has the same bytes.
fn remove_old<R: Files>(rt: &R, draft: &str) -> Result<(), FileFault>
where
    R::File: LockFile,
{
    let Ok(file) = OpenOptions::new().write(true).open(rt, draft) else {
        return Ok(());
    };
    hold_draft(rt, &file, draft)?;
    match fs::remove_file(rt, draft) {
        Ok(()) => Ok(()),
        Err(_) => Err(FileFault::Open),
    }
}

/// Makes a draft, which is locked and empty, in place of an old one that nobody holds.
fn make_draft<R: Files>(rt: &R, draft: &str) -> Result<R::File, FileFault>
where
    R::File: LockFile,
{
    remove_old(rt, draft)?;
    // It may become the file to which a log appends.
    let Ok(file) = OpenOptions::new()
        .append(true)
        .create_new(true)
        .open(rt, draft)
    else {
        return Err(FileFault::Open);
    };
    hold_draft(rt, &file, draft)?;
    Ok(file)
}

/// Gives a draft the permissions of the file whose place it is to take, where it has others, or takes
/// it away.
fn take_permissions<R: Files>(
    rt: &R,
    file: &R::File,
    old: &R::File,
    draft: &str,
) -> Result<(), FileFault> {
    let is_done = match (file.metadata(), old.metadata()) {
        (Ok(found), Ok(wanted)) => {
            found.permissions() == wanted.permissions()
                || file.set_permissions(wanted.permissions()).is_ok()
        }
        _ => false,
    };
    if is_done {
        return Ok(());
    }
    let _gone = fs::remove_file(rt, draft);
    Err(FileFault::Open)
}

/// The paths of a new append file: that of its draft, and its own.
#[derive(Clone, Copy)]
struct DraftPaths<'a> {
    draft: &'a str,
    path: &'a str,
}

/// Gives a whole draft its name, which must be free, and takes its old name away, in either case. A
/// new file that a crash could take away is taken away.
fn name_draft<R: Files>(rt: &R, names: DraftPaths<'_>) -> Result<(), FileFault> {
    let named = fs::hard_link(rt, names.draft, names.path);
    let gone = fs::remove_file(rt, names.draft);
    if named.is_err() {
        return Err(FileFault::Name);
    }
    if gone.is_ok() && sync_folder(rt, names.path).is_ok() {
        return Ok(());
    }
    let _gone = fs::remove_file(rt, names.path);
    Err(FileFault::Folder)
}

/// Gives a whole draft the name of an old file. Where it can't take the name the old file keeps it,
/// and the draft is taken away; where only the folder can't be synced, the new file has the name.
fn replace_by_draft<R: Files>(rt: &R, names: DraftPaths<'_>) -> Result<(), FileFault> {
    if fs::rename(rt, names.draft, names.path).is_err() {
        let _gone = fs::remove_file(rt, names.draft);
        return Err(FileFault::Name);
    }
    sync_folder(rt, names.path)
}

/// Writes the header and the records of the owner's sets into a draft, and syncs it, or takes it
/// away. With the draft comes the number of the records.
fn fill_draft<R: Files, H: BuildHasher + Clone + Drop, A: Allocator + Copy>(
    rt: &R,
    alloc: A,
    draft: &str,
    file: R::File,
    owner: &OneOwner<H, A>,
) -> Result<(FileSink<R::File>, u64), NewFileFault>
    requires { owner.now.next ≡ None }
    ensures { IfOk result
        (λ filled. filled.1 ≡ min (length (dump owner.now.world)) (2 ^ 64 - 1)) }
{
    let mut sink = FileSink::new(file);
    match rewrite(alloc, owner, &mut sink) {
        Ok(records) => Ok((sink, records)),
        Err(fault) => {
            let _gone = fs::remove_file(rt, draft);
            Err(NewFileFault::Rewrite(fault))
        }
    }
}

/// The name of a file's draft.
fn draft_of<A: Allocator>(alloc: A, path: &str) -> Result<String<A>, NewFileFault> {
    match format!(in alloc; "{path}.new") {
        Ok(draft) => Ok(draft),
        Err(_) => Err(NewFileFault::Rewrite(RewriteFault::NoMemory)),
    }
}

/// Makes a draft with the permissions of the file whose place it is to take.
fn make_draft_like<R: Files>(rt: &R, draft: &str, old: &R::File) -> Result<R::File, FileFault>
where
    R::File: LockFile,
{
    let file = make_draft(rt, draft)?;
    take_permissions(rt, &file, old, draft)?;
    Ok(file)
}

/// Makes a new append file with the records of an owner's sets, and gives their number, which stays
/// at 2^64 - 1.
///
/// A draft beside it, whose name has `.new` behind, gets the header and these records. Once it is
/// synced it is brought to its name by a link, and the folder is synced. The file is locked alone
/// meanwhile, under either name.
///
/// # Errors
///
/// There is no new file then, and one that had its name before stands as it was. The draft is
/// taken away as far as that can be done, but for one that somebody else holds.
pub fn write_anew<R: Files, H: BuildHasher + Clone + Drop, A: Allocator + Copy>(
    rt: &R,
    alloc: A,
    path: &str,
    owner: &OneOwner<H, A>,
) -> Result<u64, NewFileFault>
where
    R::File: LockFile,
    requires { owner.now.next ≡ None }
    ensures { IfOk result (λ n. n ≡ min (length (dump owner.now.world)) (2 ^ 64 - 1)) }
{
    let draft = draft_of(alloc, path)?;
    let file = make_draft(rt, draft.as_str())?;
    // The lock is held until the draft has its name.
    let (_sink, records) = fill_draft(rt, alloc, draft.as_str(), file, owner)?;
    let names = DraftPaths {
        draft: draft.as_str(),
        path,
    };
    name_draft(rt, names)?;
    Ok(records)
}

/// Puts a new append file with the records of an owner's sets in the place of an old one, and gives
/// it, open for appending and locked alone. The path is that of the old file itself and no link.
///
/// A draft beside it, whose name has `.new` behind, gets the header and these records, and the old
/// file's permissions. Once it is synced it is renamed over the old file, and the folder is synced.
/// Whoever holds the old file's lock meanwhile keeps all others out: the draft is locked before its
/// first byte.
///
/// # Errors
///
/// The old file stands as it was, but where only the folder could not be synced: the new one has its
/// name then. The draft is taken away as far as that can be done, but for one that somebody else
/// holds.
pub(crate) fn replace_old<R: Files, H: BuildHasher + Clone + Drop, A: Allocator + Copy>(
    rt: &R,
    alloc: A,
    path: &str,
    old: &R::File,
    owner: &OneOwner<H, A>,
) -> Result<R::File, NewFileFault>
where
    R::File: LockFile,
    requires { owner.now.next ≡ None }
{
    let draft = draft_of(alloc, path)?;
    let file = make_draft_like(rt, draft.as_str(), old)?;
    let (sink, _records) = fill_draft(rt, alloc, draft.as_str(), file, owner)?;
    let names = DraftPaths {
        draft: draft.as_str(),
        path,
    };
    replace_by_draft(rt, names)?;
    Ok(sink.into_file())
}
