//! Tenant files with faults, and what is told of them: the place, the name, the field and the rule.
use crate::login::fault_of;
use std::alloc::{AllocError, Allocator, Global};
use std::string::String;
use std::test::Fail;
use stow_login::explaining::explain;
use stow_login::tenants::Tenants;
use stow_testing::tenants::THREE;

/// Files, and the number of each one's fault, or 0 for none, or else what is told of it, of which `..` stands for any more. `;`
/// stands for the end of a line.
///
/// A file is the three tenants' with one change or two, of which the fault that is looked for first is told; or a whole one; or
/// one of so many tenants with no field. The changes are of keys, of the type of each field, of names of 64 bytes and of 65, of
/// hexadecimal digits, of salts of 64 bytes and of 65, of quotas, and to what is not TOML. At the limit of tenants the first is
/// looked at, and above it none is.
const FILES: &str = "\"ann\" -> \"ann\" => 0
\"ben\" -> \"b n\" => 4
\"ben\" -> \"ann\" => 3
15ad\" -> 15\" => 5
salt = \"\"; ->  => 2
[[tenant]] -> x = 1;[[tenant]] => 2
ba7816bf8f01cfea -> BA7816BF8F01CFEA => 0
[[tenant]] -> [[tenants]] => 2
name = -> nom = => 2
quota = 100; -> quota = 100;plan = 1; => 2
\"cap\" -> 1 => 2
\"61\" -> 61 => 2
quota = 100; -> quota = \"100\"; => 2
quota = 100; -> quota = 100.0; => 2
\"cap\" -> \"\" => 4
\"cap\" -> \"c.a-p_0\" => 0
\"cap\" -> \"c/p\" => 4
\"cap\" -> \"cäp\" => 4
\"cap\" -> \"abcdefghijklmnopqrstuvwxyzABCDEFGHIJKLMNOPQRSTUVWXYZ0123456789-_\" => 0
\"cap\" -> \"abcdefghijklmnopqrstuvwxyzABCDEFGHIJKLMNOPQRSTUVWXYZ0123456789-_x\" => 4
\"61\" -> \"6\" => 5
\"61\" -> \"6g\" => 5
\"\" -> \"00112233445566778899aabbccddeeffABCDEF00112233445566778899aabbcc00112233445566778899aabbccddeeffABCDEF00112233445566778899aabbcc\" => 0
\"\" -> \"00112233445566778899aabbccddeeffABCDEF00112233445566778899aabbcc00112233445566778899aabbccddeeffABCDEF00112233445566778899aabbcc00\" => 5
15ad\" -> 15ad00\" => 5
15ad\" -> 15aG\" => 5
quota = 100; -> quota = 0; => 0
quota = 100; -> quota = -1; => 6
quota = 100; -> quota = 9223372036854775807; => 0
quota = 100; -> quota = 9223372036854775808; => 1
\"cap\" -> cap => 1
salt = -> name = => 1
\"ben\" -> \"b n\" & 1000000 -> -1 => 6
\"ann\" -> \"a n\" & quota = 1000000 -> quota = 1.5 => 2
\"ann\" -> \"a n\" & \"61\" -> \"6\" => 4
\"ben\" -> \"ann\" & \"6162\" -> \"616\" => 3
\"cap\" -> \"ben\" & 100; -> -1; => 3
\"6162\" -> \"616\" & quota = 100; -> quota = -1; => 5
\"ann\" -> \"a n\" & \"ben\" -> ben => 1
[[tenant]] -> x = 1;[[tenant]] & \"ben\" -> \"b n\" => 2
\"ann\" -> \"a n\" & name = \"ben\"; ->  => 4
\"ben\" -> \"ann\" => tenant 2 \"ann\", field \"name\": the name is used by an earlier tenant
15ad\" -> 15\" => tenant 1 \"ann\", field \"digest\": a salt is 0 to 64 bytes in hexadecimal digits, a digest 32
\"61\" -> \"6\" => tenant 1 \"ann\", field \"salt\": a salt is 0 to 64 bytes in hexadecimal digits, a digest 32
salt = \"\"; ->  => tenant 3 \"cap\", field \"salt\": a key is missing, unknown or of another type
quota = 100; -> quota = -1; => tenant 3 \"cap\", field \"quota\": a quota is 0 or more
salt = \"\"; -> salt = \"\";x = 1; => tenant 3 \"cap\", field \"x\": a key is missing, unknown or of another type
whole  => 7
whole # nobody; => 7
whole tenant = [] => 7
whole tenant = [];x = 1 => 2
whole tenant = 1 => 2
whole tenant = {} => 2
whole tenant = [1] => 2
whole tenant = [{}] => 2
whole [tenant];name = \"ann\" => 2
whole tenants = [] => 2
whole tenant => 1
whole tenant = [ => 1
whole  => a file has 1 to 65,535 tenants
whole tenant = 1;x =; => TOML parse error at line 2, column ..
bare 1 => 2
bare 65535 => 2
bare 65536 => 7";

/// The text with the first `from` in it changed to `to`.
fn replaced<A: Allocator + Copy>(
    alloc: A,
    text: &str,
    from: &str,
    to: &str,
) -> Result<String<A>, AllocError> {
    match text.split_once(from) {
        Some((before, after)) => format!(in alloc; "{before}{to}{after}"),
        None => String::from_str(alloc, text),
    }
}

/// The text with a change.
fn changed<A: Allocator + Copy>(
    alloc: A,
    text: &str,
    change: &str,
) -> Result<String<A>, AllocError> {
    let (from, to) = change.split_once(" -> ").unwrap_or((change, ""));
    replaced(alloc, text, from, to)
}

/// A file of this many tenants, each with no field.
fn bare_tenants<A: Allocator>(alloc: A, count: u64) -> Result<String<A>, AllocError> {
    let mut text = String::from_str(alloc, "tenant = [")?;
    for _ in 0..count {
        text.push_str("{},")?;
    }
    text.push_str("]")?;
    Ok(text)
}

/// A file, from the text of three tenants.
fn file_of<A: Allocator + Copy>(
    alloc: A,
    three: &str,
    file: &str,
) -> Result<String<A>, AllocError> {
    if let Some(text) = file.strip_prefix("whole ") {
        return String::from_str(alloc, text);
    }
    if let Some(count) = file.strip_prefix("bare ") {
        return bare_tenants(alloc, count.parse::<u64>().unwrap_or(0));
    }
    match file.split_once(" & ") {
        Some((first, second)) => { changed(alloc, changed(alloc, three, first)?.as_str(), second) }
        None => changed(alloc, three, file),
    }
}

/// A file's text.
fn text_of<A: Allocator + Copy>(alloc: A, file: &str) -> Result<String<A>, AllocError> {
    let three = THREE.replace(alloc, "\n", ";")?;
    file_of(alloc, three.as_str(), file)?.replace(alloc, ";", "\n")
}

/// Whether a text is this, or begins so.
fn is_begun(text: &str, told: &str) -> bool {
    match told.strip_suffix("..") {
        Some(begin) => text.starts_with(begin),
        None => text == told,
    }
}

/// Whether a text's fault is explained so.
fn is_explained<A: Allocator + Copy>(
    alloc: A,
    global: Global,
    text: &str,
    told: &str,
) -> Result<bool, AllocError> {
    match Tenants::read(alloc, global, text) {
        Ok(_) => Ok(false),
        Err(fault) => Ok(is_begun(explain(global, text, fault)?.as_str(), told)),
    }
}

/// Whether this is told of a text.
fn is_told<A: Allocator + Copy>(
    alloc: A,
    global: Global,
    text: &str,
    told: &str,
) -> Result<bool, AllocError> {
    match told.parse::<u8>() {
        Ok(number) => Ok(fault_of(alloc, global, text) == number),
        Err(_) => is_explained(alloc, global, text, told),
    }
}

/// Whether a row holds.
fn holds<A: Allocator + Copy>(alloc: A, global: Global, row: &str) -> Result<bool, AllocError> {
    let (file, told) = row.split_once(" => ").unwrap_or((row, ""));
    is_told(alloc, global, text_of(alloc, file)?.as_str(), told)
}

#[test]
fn files_are_told_their_first_fault(rt: HostRuntime) -> Result<(), Fail> {
    for row in FILES.split('\n') {
        assert!(rt; holds(rt.alloc(), rt.alloc(), row)?, "{row}");
    }
    Ok(())
}
