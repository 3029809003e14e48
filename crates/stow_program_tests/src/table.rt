//! Tables of texts, each with what is told of it.
//!
//! In a table of rows `\r`, `\n` and `\t` stand for these bytes. In each table `{LOW..HIGH|TEXT}` stands for the text once for
//! each number from LOW to below HIGH, which `%` in it stands for, `@` for the longest value, 1,048,576 times `v`, and `^` for
//! 65,535 times `v`.
use std::alloc::{AllocError, Allocator, Global};

/// What is given, and what comes of it.
#[derive(Drop)]
pub struct Row<A: Allocator = Global> {
    pub given: String<A>,
    pub told: String<A>,
}

/// The rows of a table, a line each: two texts with an arrow between them.
pub fn rows_of<A: Allocator + Copy>(alloc: A, table: &str) -> Result<Vec<Row<A>, A>, AllocError> {
    let mut rows = Vec::new(alloc);
    for line in lines_of(table) {
        let (given, told) = line.split_once(" => ").unwrap_or((line, ""));
        rows.push(Row {
            given: decoded(alloc, given)?,
            told: decoded(alloc, told)?,
        })?;
    }
    Ok(rows)
}

/// The lines between the first of a table and its last.
pub fn lines_of(table: &str) -> std::str::Split<'_, char> {
    let table = table.strip_prefix('\n').unwrap_or(table);
    table.strip_suffix('\n').unwrap_or(table).split('\n')
}

/// The scripts of a table with what they are told, after `----` each; between two scripts stands `====`.
pub fn scripts_of<A: Allocator + Copy>(
    alloc: A,
    table: &str,
) -> Result<Vec<Row<A>, A>, AllocError> {
    let mut rows = Vec::new(alloc);
    for part in table.split("====\n") {
        let (given, told) = part.split_once("----\n").unwrap_or((part, ""));
        rows.push(Row {
            given: spread(alloc, given)?,
            told: spread(alloc, told)?,
        })?;
    }
    Ok(rows)
}

fn decoded<A: Allocator + Copy>(alloc: A, text: &str) -> Result<String<A>, AllocError> {
    let text = text.replace(alloc, "\\r", "\r")?;
    let text = text.replace(alloc, "\\n", "\n")?;
    let text = text.replace(alloc, "\\t", "\t")?;
    spread(alloc, text.as_str())
}

/// The text that this one stands for.
pub fn spread<A: Allocator + Copy>(alloc: A, text: &str) -> Result<String<A>, AllocError> {
    let mut whole = String::new(alloc);
    for part in text.split('{') {
        match part.split_once("}") {
            Some((group, rest)) => {
                push_group(alloc, group, &mut whole)?;
                whole.push_str(rest)?;
            }
            None => whole.push_str(part)?,
        }
    }
    with_values(alloc, whole)
}

fn push_group<A: Allocator + Copy>(
    alloc: A,
    group: &str,
    whole: &mut String<A>,
) -> Result<(), AllocError> {
    let Some((low, high, text)) = group_of(group) else {
        return whole.push_str(group);
    };
    for number in low..high {
        push_numbered(alloc, text, number, whole)?;
    }
    Ok(())
}

fn group_of(group: &str) -> Option<(u32, u32, &str)> {
    let (range, text) = group.split_once("|")?;
    let (low, high) = range.split_once("..")?;
    Some((low.parse().ok()?, high.parse().ok()?, text))
}

fn push_numbered<A: Allocator + Copy>(
    alloc: A,
    text: &str,
    number: u32,
    whole: &mut String<A>,
) -> Result<(), AllocError> {
    let digits = format!(in alloc; "{number}")?;
    let text = text.replace(alloc, "%", digits.as_str())?;
    whole.push_str(text.as_str())
}

/// The text with so many times `v` in the place of each such mark.
fn with_value<A: Allocator + Copy>(
    alloc: A,
    text: String<A>,
    mark: char,
    size: usize,
) -> Result<String<A>, AllocError> {
    if !text.contains(mark) {
        return Ok(text);
    }
    let value = "v".repeat(alloc, size)?;
    text.replace(alloc, mark, value.as_str())
}

fn with_values<A: Allocator + Copy>(alloc: A, text: String<A>) -> Result<String<A>, AllocError> {
    let text = with_value(alloc, text, '@', 1_048_576)?;
    with_value(alloc, text, '^', 65_535)
}
