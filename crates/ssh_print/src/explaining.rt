//! The rows of the table of codes, and the lines that `explain` prints for codes.

ghost use Rattle.std.specs.Prelude.{◌≡◌, find, map, option_map, ◌++◌, ◌↔◌, ℕ, length, IfOk, IsOk, OnOk};
ghost use Rattle.ssh_print.specs.Table.{is_of, row_of, code_row, reported, sections, table};
ghost use Rattle.std.specs.List.{flat_map};
ghost use Rattle.ssh_print.specs.declared.explaining.ExplainError.TheVariants.{Memory};
ghost use Rattle.ssh_print.specs.Explaining.{code_line, first_unknown_code, is_unknown, row_text};
ghost use Rattle.ssh_print.specs.Table as table;

use crate::table::{
    ANSWERS, BODIES, CERTIFICATES, FAULTS, FIELDS, FINDINGS, KEYS, LINES, REASONS, Texts,
};
use std::alloc::{AllocError, Global};

/// The row of a printed code.
#[derive(Clone, Copy, Debug)]
pub struct Row {
    /// The code, or the word that takes its place, such as `usage`.
    pub code: &'static str,
    /// What it means, as a sentence to follow the code.
    pub sentence: &'static str,
    /// What to do about it.
    pub remedy: &'static str,
}

/// A row from its three texts in the source.
pub(crate) fn row_from(texts: Texts) -> Row
    ensures { code_row result ≡ reported texts.entry }
{
    Row {
        code: texts.0,
        sentence: texts.1,
        remedy: texts.2,
    }
}

fn texts_in(section: &[Texts], code: &str) -> Option<Texts>
    ensures { option_map reported result ≡ find (is_of code.now) (map reported section.now) }
{
    section.iter().copied().find(|row| row.0 == code)
}

/// The row of this code, compared byte for byte, if there is one.
pub fn row_of(code: &str) -> Option<Row>
    ensures { option_map code_row result ≡ row_of code.now }
{
    for section in sections() {
        if let Some(texts) = texts_in(section, code) {
            return Some(row_from(texts));
        }
    }
    None
}

#[tactic(auto, unfolding(crate::specs::Table::answers))]
fn answers() -> &'static [Texts]
    ensures { map reported result.now ≡ table.answers }
{
    &ANSWERS
}

#[tactic(auto, unfolding(crate::specs::Table::reasons))]
fn reasons() -> &'static [Texts]
    ensures { map reported result.now ≡ table.reasons }
{
    &REASONS
}

#[tactic(auto, unfolding(crate::specs::Table::lines))]
fn lines() -> &'static [Texts]
    ensures { map reported result.now ≡ table.lines }
{
    &LINES
}

#[tactic(auto, unfolding(crate::specs::Table::findings))]
fn findings() -> &'static [Texts]
    ensures { map reported result.now ≡ table.findings }
{
    &FINDINGS
}

#[tactic(auto, unfolding(crate::specs::Table::faults))]
fn faults() -> &'static [Texts]
    ensures { map reported result.now ≡ table.faults }
{
    &FAULTS
}

#[tactic(auto, unfolding(crate::specs::Table::keys))]
fn keys() -> &'static [Texts]
    ensures { map reported result.now ≡ table.keys }
{
    &KEYS
}

#[tactic(auto, unfolding(crate::specs::Table::certificates))]
fn certificates() -> &'static [Texts]
    ensures { map reported result.now ≡ table.certificates }
{
    &CERTIFICATES
}

#[tactic(auto, unfolding(crate::specs::Table::fields))]
fn fields() -> &'static [Texts]
    ensures { map reported result.now ≡ table.fields }
{
    &FIELDS
}

#[tactic(auto, unfolding(crate::specs::Table::bodies))]
fn bodies() -> &'static [Texts]
    ensures { map reported result.now ≡ table.bodies }
{
    &BODIES
}

/// The sections of the table, in the order of docs/CODES.md.
pub(crate) fn sections() -> [&'static [Texts]; 9]
    ensures { map (λ section. map reported section.now) result ≡ sections }
{
    [
        answers(),
        reasons(),
        lines(),
        findings(),
        faults(),
        keys(),
        certificates(),
        fields(),
        bodies(),
    ]
}

/// Why codes cannot be explained.
#[derive(Clone, Copy, Debug, PartialEq, Eq)]
pub enum ExplainError {
    /// The code at this index has no row, and it is the first such code.
    Unknown(usize),
    Memory,
}

impl From<AllocError> for ExplainError {
    ghost from_gives = { λ x e. e ≡ Memory };

    fn from(_e: AllocError) -> ExplainError {
        ExplainError::Memory
    }
}

/// Appends the line of a row. On `Err` a part of it may have been written.
#[tactic(auto, unfolding(crate::specs::Explaining::row_text))]
fn push_row(out: &mut Vec<u8>, row: Row) -> Result<(), AllocError>
    ensures { OnOk result (out.new.items ≡ out.old.items ++ row_text (code_row row)) }
{
    out.extend_from_slice(row.code.as_bytes())?;
    out.extend_from_slice(b": ")?;
    out.extend_from_slice(row.sentence.as_bytes())?;
    out.extend_from_slice(b" - ")?;
    out.extend_from_slice(row.remedy.as_bytes())?;
    out.push(b'\n')?;
    Ok(())
}

fn push_section(out: &mut Vec<u8>, section: &[Texts]) -> Result<(), AllocError>
    ensures { OnOk result (out.new.items ≡ out.old.items ++ flat_map row_text (map reported section.now)) }
{
    for texts in section {
        push_row(out, row_from(*texts))?;
    }
    Ok(())
}

/// The lines of all codes, in the order of docs/CODES.md.
pub fn explain_all(alloc: Global) -> Result<Vec<u8>, AllocError>
    ensures { IfOk result (λ text. text.items ≡ flat_map row_text table) }
{
    let mut out = Vec::new(alloc);
    for section in sections() {
        push_section(&mut out, section)?;
    }
    Ok(out)
}

fn is_unknown(code: &str) -> bool
    ensures { result ≡ is_unknown code.now }
{
    row_of(code).is_none()
}

fn first_unknown(codes: &[&str]) -> Option<usize>
    ensures { result ≡ first_unknown_code (map (λ code. code.now) codes.now) }
{
    codes.iter().position(|code| is_unknown(code))
}

fn push_code(out: &mut Vec<u8>, code: &str) -> Result<(), AllocError>
    ensures { OnOk result (out.new.items ≡ out.old.items ++ code_line code.now) }
{
    if let Some(row) = row_of(code) {
        push_row(out, row)?;
    }
    Ok(())
}

fn push_codes(out: &mut Vec<u8>, codes: &[&str]) -> Result<(), AllocError>
    ensures text { OnOk result (out.new.items ≡ out.old.items
        ++ flat_map code_line (map (λ code. code.now) codes.now)) }
    ensures spare { length codes.now ≡ 0 → IsOk result }
{
    for code in codes {
        push_code(out, code)?;
    }
    Ok(())
}

/// The lines of these codes, in their order. An unknown code is reported even when allocation
/// fails.
pub fn explain(alloc: Global, codes: &[&str]) -> Result<Vec<u8>, ExplainError>
    ensures text { IfOk result (λ text. text.items
        ≡ flat_map code_line (map (λ code. code.now) codes.now)) }
    ensures unknown { (k : ℕ) → result ≡ Err (ExplainError.Unknown k)
        ↔ first_unknown_code (map (λ code. code.now) codes.now) ≡ Some k }
    ensures spare { length codes.now ≡ 0 → IsOk result }
{
    if let Some(index) = first_unknown(codes) {
        return Err(ExplainError::Unknown(index));
    }
    let mut out = Vec::new(alloc);
    push_codes(&mut out, codes)?;
    Ok(out)
}
