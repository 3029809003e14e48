//! Where a tenant file's first fault is, in words for whoever wrote the file.
use crate::reading::{items_in, number_at, read_tenant, salt_in, text_at};
use crate::tenants::Tenants;
use crate::tenants_fault::TenantsFault;
use std::alloc::{AllocError, Global};
use toml::{Table, Value};

/// The most characters of a name or a key that are shown.
const SHOWN: usize = 64;

/// A tenant's fields in the order in which they are looked at: whose values are texts, and the one whose is a number.
const TEXTS: [&str; 3] = ["name", "salt", "digest"];

const NUMBER: &str = "quota";

/// One line without its end about the first fault of a tenant file's text, which is this one: the parser's own text and
/// line where the file isn't TOML; else the rule, behind the tenant's place, counted from 1, its name and the field,
/// where it has them.
pub fn explain(alloc: Global, text: &str, fault: TenantsFault) -> Result<String, AllocError> {
    match toml::table_from_str(alloc, text) {
        Ok(table) => explain_fault(alloc, &table, fault),
        Err(error) => {
            let told = format!(in alloc; "{error}")?;
            in_one_line(alloc, told.as_str())
        }
    }
}

/// The lines of a text, with a colon between each two.
fn in_one_line(alloc: Global, text: &str) -> Result<String, AllocError> {
    let mut line = String::new(alloc);
    for part in text.lines() {
        if !line.is_empty() {
            line.push_str(": ")?;
        }
        line.push_str(part)?;
    }
    Ok(line)
}

fn explain_fault(alloc: Global, table: &Table, fault: TenantsFault) -> Result<String, AllocError> {
    let mut line = String::new(alloc);
    if fault != TenantsFault::WrongCount {
        if let Some((place, value)) = first_refused(alloc, table)? {
            line = place_of(alloc, place, value, fault)?;
            line.push_str(": ")?;
        }
    }
    line.push_str(format!(in alloc; "{fault}")?.as_str())?;
    Ok(line)
}

/// The first tenant that is refused: its place, counted from 1, and what stands there.
fn first_refused(alloc: Global, table: &Table) -> Result<Option<(u32, &Value)>, AllocError> {
    let Ok(items) = items_in(table) else {
        return Ok(None);
    };
    let mut earlier = Tenants::new(alloc);
    for item in items {
        match read_tenant(alloc, &earlier, item) {
            Ok(tenant) if earlier.has_room() => earlier.add(alloc, tenant)?,
            Ok(_) => return Ok(None),
            Err(TenantsFault::OutOfMemory) => return Err(AllocError),
            Err(_) => return Ok(Some((earlier.count() + 1, item))),
        }
    }
    Ok(None)
}

/// A tenant's place, its name and the field that the fault is in.
fn place_of(
    alloc: Global,
    place: u32,
    value: &Value,
    fault: TenantsFault,
) -> Result<String, AllocError> {
    let mut line = format!(in alloc; "tenant {place}")?;
    let Some(table) = value.as_table() else {
        return Ok(line);
    };
    if let Some(name) = text_at(table, "name") {
        line.push_str(format!(in alloc; " {:?}", shown(name))?.as_str())?;
    }
    if let Some(field) = field_of(alloc, table, fault) {
        line.push_str(format!(in alloc; ", field {:?}", shown(field))?.as_str())?;
    }
    Ok(line)
}

/// The front of a text that is shown.
fn shown(text: &str) -> &str {
    match text.char_indices().nth(SHOWN) {
        Some((at, _)) => text.get(..at).unwrap_or(text),
        None => text,
    }
}

/// The field that the fault is in.
fn field_of(alloc: Global, table: &Table, fault: TenantsFault) -> Option<&str> {
    match fault {
        TenantsFault::BadName | TenantsFault::NameUsed => Some("name"),
        TenantsFault::QuotaOutOfRange => Some(NUMBER),
        TenantsFault::BadHexadecimal => Some(bad_digits(alloc, table)),
        TenantsFault::WrongShape => misshapen(table),
        _ => None,
    }
}

/// Which of salt and digest is no text by its rule, the salt first.
fn bad_digits(alloc: Global, table: &Table) -> &'static str {
    let salt = text_at(table, "salt").map(|text| salt_in(alloc, text).is_ok());
    if salt == Some(true) { "digest" } else { "salt" }
}

/// The first field that is missing or of another type, else a field that is none.
fn misshapen(table: &Table) -> Option<&str> {
    for key in TEXTS {
        if text_at(table, key).is_none() {
            return Some(key);
        }
    }
    if number_at(table, NUMBER).is_none() {
        return Some(NUMBER);
    }
    unknown(table)
}

fn unknown(table: &Table) -> Option<&str> {
    for (key, _) in table {
        if !TEXTS.contains(&key.as_str()) && key.as_str() != NUMBER {
            return Some(key.as_str());
        }
    }
    None
}
