//! How a run ends.
ghost use Rattle.std.specs.Prelude.{◌≡◌, IfOk};
ghost use Rattle.std.specs.Option.{option_copied};
ghost use Rattle.edge_run.specs.Outcome.{status_of, line_of, usage_line_of, read_line_of, long_line_of, schema_line_of, schema_syntax_of, schema_rule_of, data_line_of, data_rule_of, earlier_of, objects_line_of, query_line_of, query_syntax_of, args_line_of, args_rule_of, named_line_of, byte_line_of, token_line_of, fault_line_of};

use db_draft::{Broken as BrokenData, Rule as DataRule};
use db_load::{ArgsRule, BrokenArgs};
use ev_value::{Fault, Text};
use exact::Rule;
use schema_build::{Broken as BrokenSchema, Rule as SchemaRule};
use std::alloc::{AllocError, Global};

/// A document that a mode reads.
#[derive(Clone, Copy)]
pub enum Doc {
    Schema,
    Data,
    Query,
    Args,
}

/// Where a run writes to.
#[derive(Clone, Copy)]
pub enum Chan {
    Out,
    Err,
}

/// A rule of the command line.
#[derive(Clone, Copy)]
pub enum UsageRule {
    /// The words are MODE, SCHEMA, DATA and QUERY, and `--args` and one more where there are arguments.
    U1,
    /// The first word is a mode.
    U2,
}

/// Why a schema is refused. Bytes and tokens are numbered from 0, and the end counts as a token.
#[derive(Clone, Copy)]
pub enum SchemaRefusal {
    /// With this byte no token begins.
    Lex { byte: u32 },
    /// By this rule the grammar refuses this token.
    Syntax { rule: Rule, token: u32 },
    /// This rule of schemas fails, at this byte.
    Build(BrokenSchema),
    /// A computed pointer or a policy stands in the schema: neither is built yet.
    Unbuilt,
}

/// Why a query is refused. Bytes and tokens are numbered from 0, and the end counts as a token.
#[derive(Clone, Copy)]
pub enum QueryRefusal {
    /// With this byte no token begins.
    Lex { byte: u32 },
    /// By this rule the grammar refuses this token.
    Syntax { rule: Rule, token: u32 },
    /// The query is of a form that is not built yet.
    Unbuilt,
}

/// How a run ends.
#[derive(Drop)]
pub enum Outcome {
    /// The answer was written whole.
    Done,
    Usage(UsageRule),
    /// The document could not be read.
    ReadFault(Doc),
    /// The document is longer than it may be.
    TooLong(Doc),
    /// The text that was due could not be written whole there.
    WriteFault(Chan),
    SchemaRefused(SchemaRefusal),
    /// This rule on data fails, at these objects.
    DataRefused(BrokenData),
    /// This rule on arguments fails, at this name.
    ArgsRefused(BrokenArgs),
    QueryRefused(QueryRefusal),
    /// The answer's items hold this fault.
    RunFault(Fault),
    /// Want of memory.
    Memory,
}

impl Outcome {
    /// The exit status of the program.
    pub fn status(&self) -> u8
        ensures { result ≡ status_of self.now }
    {
        match self {
            Outcome::Done => 0,
            Outcome::Usage(_) => 2,
            Outcome::ReadFault(_) => 3,
            Outcome::WriteFault(_) => 4,
            Outcome::SchemaRefused(_) => 5,
            Outcome::DataRefused(_) => 6,
            Outcome::ArgsRefused(_) => 7,
            Outcome::QueryRefused(_) => 8,
            Outcome::RunFault(_) => 9,
            Outcome::Memory => 10,
            Outcome::TooLong(_) => 11,
        }
    }

    /// The line, with its line feed, that tells of this end on standard error. It is empty where none is due.
    pub fn line(&self, alloc: Global) -> Result<Text, AllocError>
        ensures { IfOk result (λ line. line ≡ line_of self.now) }
    {
        match self {
            Outcome::Done | Outcome::WriteFault(_) => Text::from_str(alloc, ""),
            Outcome::Usage(rule) => Text::from_str(alloc, usage_line(*rule)),
            Outcome::ReadFault(doc) => Text::from_str(alloc, read_line(*doc)),
            Outcome::TooLong(doc) => Text::from_str(alloc, long_line(*doc)),
            Outcome::SchemaRefused(refusal) => schema_line(alloc, *refusal),
            Outcome::DataRefused(broken) => data_line(alloc, *broken),
            Outcome::ArgsRefused(broken) => args_line(alloc, broken),
            Outcome::QueryRefused(refusal) => query_line(alloc, *refusal),
            Outcome::RunFault(fault) => Text::from_str(alloc, fault_line(*fault)),
            Outcome::Memory => Text::from_str(alloc, memory_line()),
        }
    }
}

/// The line that tells of want of memory, and takes none.
pub fn memory_line() -> &'static str
    ensures { result.now ≡ line_of Outcome.Memory }
{
    "memory\n"
}

fn usage_line(rule: UsageRule) -> &'static str
    ensures { result.now ≡ usage_line_of rule }
{
    match rule {
        UsageRule::U1 => "usage U1\n",
        UsageRule::U2 => "usage U2\n",
    }
}

fn read_line(doc: Doc) -> &'static str
    ensures { result.now ≡ read_line_of doc }
{
    match doc {
        Doc::Schema => "read schema\n",
        Doc::Data => "read data\n",
        Doc::Query => "read query\n",
        Doc::Args => "read args\n",
    }
}

fn long_line(doc: Doc) -> &'static str
    ensures { result.now ≡ long_line_of doc }
{
    match doc {
        Doc::Schema => "long schema\n",
        Doc::Data => "long data\n",
        Doc::Query => "long query\n",
        Doc::Args => "long args\n",
    }
}

/// The line of a rule that fails at a byte.
fn byte_line(alloc: Global, rule: &str, byte: u32) -> Result<Text, AllocError>
    ensures { IfOk result (λ line. line ≡ byte_line_of rule.now byte) }
{
    let line = format!(in alloc; "{rule} byte {byte}\n")?;
    Ok(Text::new(line))
}

/// The line of a rule of the grammar that refuses a token.
fn token_line(alloc: Global, rule: &str, token: u32) -> Result<Text, AllocError>
    ensures { IfOk result (λ line. line ≡ token_line_of rule.now token) }
{
    let line = format!(in alloc; "{rule} token {token}\n")?;
    Ok(Text::new(line))
}

fn schema_line(alloc: Global, refusal: SchemaRefusal) -> Result<Text, AllocError>
    ensures { IfOk result (λ line. line ≡ schema_line_of refusal) }
{
    match refusal {
        SchemaRefusal::Lex { byte } => byte_line(alloc, "schema S1", byte),
        SchemaRefusal::Syntax { rule, token } => token_line(alloc, schema_syntax(rule), token),
        SchemaRefusal::Build(broken) => byte_line(alloc, schema_rule(broken.rule), broken.byte),
        SchemaRefusal::Unbuilt => Text::from_str(alloc, "schema unbuilt\n"),
    }
}

fn schema_syntax(rule: Rule) -> &'static str
    ensures { result.now ≡ schema_syntax_of rule }
{
    match rule {
        Rule::Unexpected => "schema S2",
        Rule::TooDeep => "schema S3",
    }
}

fn schema_rule(rule: SchemaRule) -> &'static str
    ensures { result.now ≡ schema_rule_of rule }
{
    match rule {
        SchemaRule::M1 => "schema M1",
        SchemaRule::M2 => "schema M2",
        SchemaRule::M3 => "schema M3",
        SchemaRule::M4 => "schema M4",
        SchemaRule::M5 => "schema M5",
        SchemaRule::M6 => "schema M6",
        SchemaRule::M10 => "schema M10",
        SchemaRule::M11 => "schema M11",
    }
}

fn data_line(alloc: Global, broken: BrokenData) -> Result<Text, AllocError>
    ensures { IfOk result (λ line. line ≡ data_line_of broken) }
{
    let earlier = earlier(broken.rule, broken.other);
    objects_line(alloc, data_rule(broken.rule), broken.object, earlier)
}

/// The line of a rule on data that fails, with the object, and with the earlier one that it tells.
fn objects_line(
    alloc: Global,
    rule: &str,
    object: Option<u32>,
    earlier: Option<u32>,
) -> Result<Text, AllocError>
    ensures { IfOk result (λ line. line ≡ objects_line_of rule.now object earlier) }
{
    let line = match (object, earlier) {
        (None, _) => format!(in alloc; "{rule}\n")?,
        (Some(object), None) => format!(in alloc; "{rule} object {object}\n")?,
        (Some(object), Some(earlier)) => {
            format!(in alloc; "{rule} object {object} object {earlier}\n")?
        }
    };
    Ok(Text::new(line))
}

/// The earlier object, where the rule is one on two objects.
fn earlier(rule: DataRule, other: Option<u32>) -> Option<u32>
    ensures { result ≡ earlier_of rule other }
{
    match rule {
        DataRule::X4 | DataRule::X13 => other,
        _ => None,
    }
}

fn data_rule(rule: DataRule) -> &'static str
    ensures { result.now ≡ data_rule_of rule }
{
    match rule {
        DataRule::X1 => "data X1",
        DataRule::X2 => "data X2",
        DataRule::X3 => "data X3",
        DataRule::X4 => "data X4",
        DataRule::X5 => "data X5",
        DataRule::X6 => "data X6",
        DataRule::X7 => "data X7",
        DataRule::X8 => "data X8",
        DataRule::X9 => "data X9",
        DataRule::X10 => "data X10",
        DataRule::X11 => "data X11",
        DataRule::X12 => "data X12",
        DataRule::X13 => "data X13",
    }
}

fn query_line(alloc: Global, refusal: QueryRefusal) -> Result<Text, AllocError>
    ensures { IfOk result (λ line. line ≡ query_line_of refusal) }
{
    match refusal {
        QueryRefusal::Lex { byte } => byte_line(alloc, "query S1", byte),
        QueryRefusal::Syntax { rule, token } => token_line(alloc, query_syntax(rule), token),
        QueryRefusal::Unbuilt => Text::from_str(alloc, "query unbuilt\n"),
    }
}

fn query_syntax(rule: Rule) -> &'static str
    ensures { result.now ≡ query_syntax_of rule }
{
    match rule {
        Rule::Unexpected => "query S2",
        Rule::TooDeep => "query S3",
    }
}

fn args_line(alloc: Global, broken: &BrokenArgs) -> Result<Text, AllocError>
    ensures { IfOk result (λ line. line ≡ args_line_of broken.now) }
{
    named_line(
        alloc,
        args_rule(broken.rule),
        broken.global,
        broken.name.as_ref(),
    )
}

/// The line of a rule on arguments that fails at a global or at a parameter, or of the text as a whole.
fn named_line(
    alloc: Global,
    rule: &str,
    global: bool,
    name: Option<&Text>,
) -> Result<Text, AllocError>
    ensures { IfOk result (λ line. line ≡ named_line_of rule.now global (option_copied name.entry)) }
{
    let Some(name) = name else {
        let line = format!(in alloc; "{rule}\n")?;
        return Ok(Text::new(line));
    };
    let name = name.as_str();
    let line = if global {
        format!(in alloc; "{rule} global {name}\n")?
    } else {
        format!(in alloc; "{rule} ${name}\n")?
    };
    Ok(Text::new(line))
}

fn args_rule(rule: ArgsRule) -> &'static str
    ensures { result.now ≡ args_rule_of rule }
{
    match rule {
        ArgsRule::A1 => "args A1",
        ArgsRule::A2 => "args A2",
        ArgsRule::A3 => "args A3",
        ArgsRule::A4 => "args A4",
    }
}

#[tactic(auto, using(std::proofs::lemmas::Fmt::decimal_digit))]
fn fault_line(fault: Fault) -> &'static str
    ensures { result.now ≡ fault_line_of fault }
{
    match fault {
        Fault::IntOverflow => "run fault 1\n",
        Fault::DivisionByZero => "run fault 2\n",
        Fault::CastText => "run fault 3\n",
        Fault::AssertSingle => "run fault 4\n",
        Fault::AssertExists => "run fault 5\n",
        Fault::AssertDistinct => "run fault 6\n",
        Fault::NegativeLimit => "run fault 7\n",
    }
}
