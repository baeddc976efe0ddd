use crate::fault::OpenFailed;
use crate::file_disk::FileDisk;
use crate::folder::HostFolder;
use crate::host::HostFile;
use crate::open::{make, open};
use pw_volume::disk::Disk;
use pw_volume::fault::DiskFailed;
use std::alloc::Global;
use std::fs;
use std::os::unix::fs::{MetadataExt, PermissionsExt, symlink};
use std::test::Fail;

const FOLDER: &str = "pw_file_disk_test";

const TRAIL: &str = "pw_file_disk_test/trail";

/// What a read of the whole disk gives.
fn contents<D: Disk>(alloc: Global, disk: &mut D) -> Result<Vec<u8>, Fail> {
    let length = disk.length()?;
    let mut bytes = vec![in alloc; 0u8; length as usize]?;
    disk.read(0, bytes.as_mut_slice())?;
    Ok(bytes)
}

/// Keeps so many bytes, or all.
fn shorten<D: Disk>(disk: &mut D, most: u64) -> Result<(), DiskFailed> {
    let length = disk.length()?;
    disk.cut(most.min(length))
}

/// The disk over the trail, which is there.
fn found(rt: &HostRuntime, alloc: Global, folder: &HostFolder) -> Result<FileDisk<HostFile>, Fail> {
    match open(rt, alloc, folder, "trail")? {
        Some(disk) => Ok(disk),
        None => Err(Fail::from("there is no trail")),
    }
}

#[test]
fn a_file_is_made_and_found_again(rt: HostRuntime) -> Result<(), Fail> {
    let _ = fs::remove_dir_all(&rt, FOLDER);
    fs::create_dir(&rt, FOLDER)?;
    let alloc = rt.alloc();
    let folder = HostFolder::open(&rt, alloc, FOLDER)?;
    assert!(rt; matches!(HostFolder::open(&rt, alloc, FOLDER), Err(OpenFailed::InUse)));
    assert!(rt; open(&rt, alloc, &folder, "trail")?.is_none());
    let mut disk = make(&rt, alloc, &folder, "trail", b"A")?;
    let length = disk.length()?;
    disk.write_at(length, b"BCDE")?;
    disk.write_at(0, b"x")?;
    disk.sync()?;
    assert_eq!(rt; fs::read(&rt, TRAIL)?.as_slice(), b"xBCDE".as_slice());
    assert_eq!(rt; contents(alloc, &mut disk)?.as_slice(), b"xBCDE".as_slice());
    shorten(&mut disk, 1)?;
    disk.sync()?;
    drop(disk);
    assert_eq!(rt; fs::read(&rt, TRAIL)?.as_slice(), b"x".as_slice());
    let mut again = found(&rt, alloc, &folder)?;
    assert_eq!(rt; contents(alloc, &mut again)?.as_slice(), b"x".as_slice());
    drop(again);
    fs::remove_dir_all(&rt, FOLDER)?;
    Ok(())
}

#[test]
fn no_link_is_followed_and_a_mode_is_kept(rt: HostRuntime) -> Result<(), Fail> {
    const PLACE: &str = "pw_file_disk_links";
    let _ = fs::remove_dir_all(&rt, PLACE);
    fs::create_dir(&rt, PLACE)?;
    let alloc = rt.alloc();
    let folder = HostFolder::open(&rt, alloc, PLACE)?;
    fs::write(&rt, "pw_file_disk_links/other", b"kept".as_slice())?;
    symlink(&rt, "other", "pw_file_disk_links/trail")?;
    assert!(rt; matches!(open(&rt, alloc, &folder, "trail"), Err(OpenFailed::NoFile)));
    assert!(rt;
        matches!(
            make(&rt, alloc, &folder, "trail", b"A"),
            Err(OpenFailed::NoFile)
        )
    );
    fs::remove_file(&rt, "pw_file_disk_links/trail")?;
    symlink(&rt, "other", "pw_file_disk_links/trail.new")?;
    drop(make(&rt, alloc, &folder, "trail", b"A")?);
    assert_eq!(rt;
        fs::read(&rt, "pw_file_disk_links/other")?.as_slice(),
        b"kept".as_slice()
    );
    fs::set_permissions(
        &rt,
        "pw_file_disk_links/trail",
        fs::Permissions::from_mode(0o600),
    )?;
    drop(make(&rt, alloc, &folder, "trail", b"B")?);
    assert_eq!(rt;
        fs::metadata(&rt, "pw_file_disk_links/trail")?.mode() & 0o777,
        0o600
    );
    fs::remove_dir_all(&rt, PLACE)?;
    Ok(())
}

#[test]
fn a_file_whose_name_is_gone_is_not_synced(rt: HostRuntime) -> Result<(), Fail> {
    const PLACE: &str = "pw_file_disk_gone";
    let _ = fs::remove_dir_all(&rt, PLACE);
    fs::create_dir(&rt, PLACE)?;
    let alloc = rt.alloc();
    let folder = HostFolder::open(&rt, alloc, PLACE)?;
    let mut disk = make(&rt, alloc, &folder, "trail", b"A")?;
    fs::remove_dir_all(&rt, PLACE)?;
    let length = disk.length()?;
    disk.write_at(length, b"B")?;
    assert!(rt; disk.sync().is_err());
    assert!(rt; disk.failure().is_some());
    Ok(())
}
