//! The values of an order's options.

ghost use Rattle.std.specs.Prelude.{◌≡◌, ◌==◌, ◌<◌, [], Err, IfOk, IsOk, codes, map, option_map, slice_index};
ghost use Rattle.std.specs.List.{slice_split};
ghost use Rattle.std.specs.Option.{SomeIff};
ghost use Rattle.std.specs.Char.{digit_value, is_digit};
ghost use Rattle.failure.specs.Failure.{IfFault};
ghost use Rattle.clap.specs.Walk.{texts};
ghost use Rattle.command_line.specs.internal.Orders.{execute_in, explain_in, place_in, plan_in, program_in};
ghost use Rattle.command_line.specs.Settings.{execute_read, HasMemory, HasNames, HasOutputs, IsSettingsOf, byte_of, bytes_for, group_bytes, input_bytes, input_read, jump_read, limit_number, only_file, plan_number, all_groups};
ghost use Rattle.command_line.specs.Settings.{plan_read};
ghost use Rattle.command_line.specs.Settings.{IsPageOf, page_read};
ghost use Rattle.command_line.specs.Settings.{texts_read, values_read};
ghost use Rattle.command_line.specs.Settings.{Reads, ReadsFile};
ghost use Rattle.command_line.specs.internal.Reads.{if_read, in_front};

use crate::explained::page;
use crate::orders::{
    ExecuteOrder, ExplainOrder, NeedOrder, PlaceOrder, PlanTexts, ProgramOrder, Watch,
};
use crate::output_files::output_files;
use crate::port_files::{PortFile, port_files};
use crate::start_memory::{MemoryByte, fill, memory};
use failure::Failure;
use mem80::Plan;
use std::alloc::{AllocError, Global};
use thiserror::Error;

// The most instructions that are run, and the greatest budget.
const MOST: u64 = 1_000_000_000_000;

/// A byte that a port gives.
#[derive(Clone, Copy)]
pub struct InputByte {
    /// The port.
    pub port: u8,
    /// What a read of it gives, after the bytes for it that come before.
    pub byte: u8,
}

/// The values of an order's options.
#[derive(Drop)]
pub struct Settings<'a> {
    /// Where the parts of the program are to lie.
    pub plan: Plan,
    /// The most instructions that are run, or the budget of the interpreter.
    pub limit: u64,
    /// What the ports give, in the order of the text.
    pub input: Vec<InputByte>,
    /// The byte that the memory has at the start at each address, but for the bytes that follow.
    pub fill: u8,
    /// Bytes of the memory at the start, a later one over an earlier one of its address.
    pub memory: Vec<MemoryByte>,
    /// The files from which the bytes of ports come, one of a port at most, none of a port that the input names.
    pub input_files: Vec<PortFile<'a>>,
    /// The files to which the bytes of ports go, one of a port at most, no two with the same name. A dash is standard output.
    pub output_files: Vec<PortFile<'a>>,
    /// What is watched while the program runs.
    pub watch: Watch,
}

/// U4: the text of an option is not one of its values, or no fault has this number.
#[derive(Clone, Copy, Debug, Error)]
#[error("`{text}` is not a value of its option")]
pub struct ValueFault<'a> {
    /// The text.
    pub text: &'a str,
}

impl<'a> ValueFault<'a> {
    /// The number of the fault, as `plm` prints it.
    pub fn number(&self) -> &'static str
        ensures { result.now ≡ codes "U4" }
    {
        "U4"
    }
}

// Whether a text begins with a plus sign.
fn has_plus(text: &str) -> bool
    ensures { result ≡ (slice_index text.now 0 == 43) }
{
    match text.as_bytes() {
        [first, ..] => *first == b'+',
        [] => false,
    }
}

// The number of a plan that a text writes.
fn place<'a>(text: &'a str) -> Result<u16, ValueFault<'a>>
    ensures { Reads (plan_number text.entry.now) result }
{
    if has_plus(text) {
        return Err(ValueFault { text });
    }
    match text.parse::<u16>() {
        Ok(number) => Ok(number),
        Err(_) => Err(ValueFault { text }),
    }
}

// The limit that a text writes.
fn limit<'a>(text: &'a str) -> Result<u64, ValueFault<'a>>
    ensures { Reads (limit_number text.entry.now) result }
{
    if has_plus(text) {
        return Err(ValueFault { text });
    }
    match text.parse::<u64>() {
        Ok(number) => {
            if number <= MOST {
                Ok(number)
            } else {
                Err(ValueFault { text })
            }
        }
        Err(_) => Err(ValueFault { text }),
    }
}

// The plan that texts write.
fn plan_of<'a>(texts: &PlanTexts<'a>) -> Result<Plan, ValueFault<'a>>
    ensures { Reads (plan_read (plan_in texts.now)) result }
{
    let code = place(texts.code)?;
    let data_base = place(texts.data_base)?;
    let stack = place(texts.stack)?;
    let stack_size = place(texts.stack_size)?;
    Ok(Plan {
        code,
        data_base,
        stack,
        stack_size,
    })
}

// The value of a hexadecimal digit.
fn digit(letter: u8) -> Option<u8>
    ensures { SomeIff result (digit_value letter < 16) (digit_value letter) }
{
    let digit = char::from(letter).to_digit(16)?;
    Some(digit as u8)
}

// The byte that two hexadecimal digits write.
pub(crate) fn byte(high: u8, low: u8) -> Option<u8>
    ensures { result ≡ byte_of high low }
{
    let high = digit(high)?;
    let low = digit(low)?;
    Some(high * 16 + low)
}

#[tactic(auto, using(crate::proofs::Inputs::no_byte, crate::proofs::Inputs::bytes_end))]
// Adds the bytes that digits write for a port, and answers whether all of them were read.
fn add_bytes(input: &mut Vec<InputByte>, port: u8, digits: &[u8]) -> Result<bool, AllocError>
    ensures { IfOk result (λ is_read.
        in_front input.old.items (bytes_for port digits.now) ≡ if_read is_read input.new.items) }
{
    let mut rest = digits;
    while let [high, low, more @ ..] = rest {
        let Some(byte) = byte(*high, *low) else {
            return Ok(false);
        };
        input.push(InputByte { port, byte })?;
        rest = more;
    }
    Ok(rest.is_empty())
}

// Adds the bytes of a group, and answers whether all of it was read.
fn add_group(input: &mut Vec<InputByte>, group: &[u8]) -> Result<bool, AllocError>
    ensures { IfOk result (λ is_read.
        in_front input.old.items (group_bytes group.now) ≡ if_read is_read input.new.items) }
{
    let [high, low, colon, digits @ ..] = group else {
        return Ok(false);
    };
    if *colon != b':' {
        return Ok(false);
    }
    match byte(*high, *low) {
        Some(port) => add_bytes(input, port, digits),
        None => Ok(false),
    }
}

#[tactic(auto, using(crate::proofs::Inputs::no_group, crate::proofs::Inputs::groups_end))]
// Adds the bytes of groups, and answers whether all of them were read.
fn add_groups(input: &mut Vec<InputByte>, groups: &[&str]) -> Result<bool, AllocError>
    ensures { IfOk result (λ is_read.
        in_front input.old.items (all_groups group_bytes (map (λ group. group.now) groups.now))
        ≡ if_read is_read input.new.items) }
{
    let mut rest = groups;
    while let [group, more @ ..] = rest {
        if !add_group(input, group.as_bytes())? {
            return Ok(false);
        }
        rest = more;
    }
    Ok(true)
}

// The parts of a text between its slashes.
pub(crate) fn groups<'a>(alloc: Global, text: &'a str) -> Result<Vec<&'a str>, AllocError>
    ensures { IfOk result (λ groups.
        map (λ group. group.now) groups.items ≡ slice_split (λ c. c == 47) text.entry.now) }
{
    text.split('/').collect(alloc)
}

// The bytes that an input gives, or nothing where its text is no input.
fn bytes_in(alloc: Global, text: &str) -> Result<Option<Vec<InputByte>>, AllocError>
    ensures { IfOk result (λ found. option_map (λ bytes. bytes.items) found ≡ input_bytes text.now) }
{
    let groups = groups(alloc, text)?;
    let mut bytes = Vec::new(alloc);
    let adding = add_groups(&mut bytes, groups.as_slice());
    drop(groups);
    if adding? { Ok(Some(bytes)) } else { Ok(None) }
}

// The bytes that an order's input gives.
fn input<'a>(
    alloc: Global,
    text: Option<&'a str>,
) -> Result<Vec<InputByte>, Failure<ValueFault<'a>>>
    ensures ok { IfOk result (λ bytes.
        input_read (option_map (λ text. text.now) text.entry) ≡ Ok bytes.items) }
    ensures fault { IfFault result (λ fault.
        input_read (option_map (λ text. text.now) text.entry) ≡ Err fault.text.now) }
    ensures memory { text.entry ≡ None → IsOk result }
{
    let Some(text) = text else {
        return Ok(Vec::new(alloc));
    };
    match bytes_in(alloc, text)? {
        Some(bytes) => Ok(bytes),
        None => Err(Failure::Fault(ValueFault { text })),
    }
}

// The values that the texts of all options write.
fn settings_of<'a>(
    alloc: Global,
    plan_texts: &PlanTexts<'a>,
    limit_text: &'a str,
    input_text: Option<&'a str>,
    fill_text: &'a str,
    memory_text: Option<&'a str>,
    input_file_texts: &[&'a str],
    output_file_texts: &[&'a str],
    watch: Watch,
) -> Result<Settings<'a>, Failure<ValueFault<'a>>>
    ensures values { IsSettingsOf (texts_read (plan_in plan_texts.now) limit_text.entry.now
        (option_map (λ text. text.now) input_text.entry) fill_text.entry.now
        (option_map (λ text. text.now) memory_text.entry) (texts input_file_texts.now)
        (texts output_file_texts.now) watch) result }
    ensures names { HasNames (texts input_file_texts.now) result }
    ensures outputs { HasOutputs (texts output_file_texts.now) result }
    ensures memory { input_text.entry ≡ None → memory_text.entry ≡ None →
        input_file_texts.now ≡ [] → output_file_texts.now ≡ [] → HasMemory result }
{
    let plan = match plan_of(plan_texts) {
        Ok(plan) => plan,
        Err(fault) => return Err(Failure::Fault(fault)),
    };
    let limit = match limit(limit_text) {
        Ok(limit) => limit,
        Err(fault) => return Err(Failure::Fault(fault)),
    };
    let input = input(alloc, input_text)?;
    let fill = match fill(fill_text) {
        Ok(fill) => fill,
        Err(fault) => return Err(Failure::Fault(fault)),
    };
    let memory = memory(alloc, memory_text)?;
    let input_files = port_files(alloc, input_file_texts, input.as_slice())?;
    let output_files = output_files(alloc, output_file_texts)?;
    Ok(Settings {
        plan,
        limit,
        input,
        fill,
        memory,
        input_files,
        output_files,
        watch,
    })
}

impl<'a> PlaceOrder<'a> {
    /// Where the parts of the program are to lie. It answers U4 only if a text is not a value of its option, with
    /// the first such text, in the order code, data, stack, stack size.
    pub fn plan(&self) -> Result<Plan, ValueFault<'a>>
        ensures { Reads (plan_read (plan_in self.now.plan)) result }
    {
        plan_of(&self.plan)
    }

    /// The address of a jump to the start, if one is wanted. It answers U4 only if the text is not a value of the option.
    pub fn jump(&self) -> Result<Option<u16>, ValueFault<'a>>
        ensures { Reads (jump_read (place_in self.now).jump) result }
    {
        match self.jump {
            Some(text) => {
                let address = place(text)?;
                Ok(Some(address))
            }
            None => Ok(None),
        }
    }

    /// The object file. It answers U4 where there are more files than one, with the second.
    pub fn file(&self) -> Result<&'a str, ValueFault<'a>>
        ensures { ReadsFile (only_file (texts self.now.files.items)) result }
    {
        match self.files.as_slice() {
            [file] => Ok(*file),
            [_, second, ..] => Err(ValueFault { text: *second }),
            [] => Err(ValueFault { text: "" }),
        }
    }
}

impl<'a> ExecuteOrder<'a> {
    /// The values of the options. It answers U4 only if a text is not a value of its option, with the first
    /// such text, in the order code, data, stack, stack size, limit, input, fill, memory, files of the input, files of the
    /// output; else the values, or that memory ran out. Only an input, the files of ports and bytes of the memory at the
    /// start take memory.
    pub fn settings(&self, alloc: Global) -> Result<Settings<'a>, Failure<ValueFault<'a>>>
        ensures values { IsSettingsOf (execute_read (execute_in self.now)) result }
        ensures names { HasNames (execute_in self.now).input_files result }
        ensures outputs { HasOutputs (execute_in self.now).output_files result }
        ensures memory { self.now.input ≡ None → self.now.memory ≡ None →
            self.now.input_files.items ≡ [] → self.now.output_files.items ≡ [] → HasMemory result }
    {
        settings_of(
            alloc,
            &self.plan,
            self.limit,
            self.input,
            self.fill,
            self.memory,
            self.input_files.as_slice(),
            self.output_files.as_slice(),
            self.watch,
        )
    }
}

impl<'a> ExplainOrder<'a> {
    /// What is printed of the number, in which the case of letters does not count. It answers U4 where no fault has
    /// the number; else its page, or that memory ran out.
    pub fn page(&self, alloc: Global) -> Result<&'static [u8], Failure<ValueFault<'a>>>
        ensures { IsPageOf (page_read (explain_in self.now)) result }
    {
        match page(alloc, self.number)? {
            Some(page) => Ok(page),
            None => Err(Failure::Fault(ValueFault { text: self.number })),
        }
    }
}

impl<'a> NeedOrder<'a> {
    /// The plan. Nothing is made with it. It answers U4 only if a text is not a value of its option, with the
    /// first such text, in the order code, data, stack, stack size.
    pub fn plan(&self) -> Result<Plan, ValueFault<'a>>
        ensures { Reads (plan_read (plan_in self.now.plan)) result }
    {
        plan_of(&self.plan)
    }
}

impl<'a> ProgramOrder<'a> {
    /// The values of the options. It answers U4 only if a text is not a value of its option, with the first
    /// such text, in the order code, data, stack, stack size, limit, input, fill, memory, files of the input, files of the
    /// output; else the values, or that memory ran out. Only an input, the files of ports and bytes of the memory at the
    /// start take memory.
    pub fn settings(&self, alloc: Global) -> Result<Settings<'a>, Failure<ValueFault<'a>>>
        ensures values { IsSettingsOf (values_read (program_in self.now)) result }
        ensures names { HasNames (program_in self.now).input_files result }
        ensures outputs { HasOutputs (program_in self.now).output_files result }
        ensures memory { self.now.input ≡ None → self.now.memory ≡ None →
            self.now.input_files.items ≡ [] → self.now.output_files.items ≡ [] → HasMemory result }
    {
        settings_of(
            alloc,
            &self.plan,
            self.limit,
            self.input,
            self.fill,
            self.memory,
            self.input_files.as_slice(),
            self.output_files.as_slice(),
            self.watch,
        )
    }
}
