//! Folders of tests, and the files in them.
use std::fs;
use std::fs::{File, Files};
use std::path::PathBuf;
use std::process::Abort;
use std::test::Fail;
use um_asserts::{place, same_at};

/// A new folder of this name for a test, free of files that an earlier process left there.
pub fn folder(rt: &HostRuntime, name: &str) -> Result<PathBuf, Fail> {
    let path = place(rt, rt.process(), name)?;
    let _ = fs::remove_dir_all(rt, &path);
    fs::create_dir(rt, &path)?;
    Ok(path)
}

/// The path of a file in a folder.
pub fn path_of(rt: &(impl AllocGlobal + Abort), folder: &str, name: &str) -> String {
    format!(in rt.alloc(); "{folder}/{name}").expect(rt, "no memory")
}

/// The text of a file; None where it isn't there.
pub fn text_at(
    rt: &(impl AllocGlobal + Files<File = File> + Abort),
    folder: &str,
    name: &str,
) -> Option<String> {
    let path = path_of(rt, folder, name);
    if fs::exists(rt, path.as_str()).expect(rt, "not looked at") {
        Some(fs::read_to_string(rt, path.as_str()).expect(rt, "not read"))
    } else {
        None
    }
}

/// Asserts that a file has this text, or isn't there.
pub fn holds(
    rt: &(impl AllocGlobal + Files<File = File> + Abort),
    folder: &str,
    name: &str,
    wanted: Option<&str>,
) {
    let text = text_at(rt, folder, name);
    same_at!(rt, text.as_deref(), wanted, name);
}

/// Puts a file there.
pub fn put(
    rt: &(impl AllocGlobal + Files<File = File> + Abort),
    folder: &str,
    name: &str,
    bytes: &[u8],
) {
    let path = path_of(rt, folder, name);
    fs::write(rt, path.as_str(), bytes).expect(rt, "not written");
}

/// Removes the folder of a test.
pub fn remove(rt: &(impl AllocGlobal + Files<File = File> + Abort), folder: &str) {
    fs::remove_dir_all(rt, folder).expect(rt, "not removed");
}
