ghost use Rattle.std.specs.Prelude.{◌≡◌, ◌↔◌, ℕ, List, None};
ghost use Rattle.mt_tree.specs.declared.code.Code.{Code};
ghost use Rattle.mt_tree.specs.declared.code.Code.TheVariants as code;
ghost use Rattle.mt_tree.specs.declared.command.AdminCmd.{AdminCmd};
ghost use Rattle.mt_tree.specs.declared.reply.Reply.{Reply};
ghost use Rattle.mt_tree.specs.declared.reply.Reply.TheVariants.{Refused, Memory};
ghost use Rattle.mt_tree.specs.declared.simple.SimpleStmt.{SimpleStmt};
ghost use Rattle.mt_script.specs.Lines.{Line};
ghost use Rattle.mt_reader.specs.Reading.{ReadsAs};
ghost use Rattle.mt_adminlang.specs.Command.{SpellsCommand};
ghost use Rattle.mt_schema.specs.Steps.{IsSchemaStep, IsWellFormed, stepped};
ghost use Rattle.mt_model.specs.Command.{applied, command_refusal};
ghost use Rattle.mt_model.specs.FirstPath.{first_path};
ghost use Rattle.mt_model.specs.Isolation.{service_rules, own_events, replies_to, private_replies};
ghost use Rattle.mt_model.specs.Laws.{EachStepPrints};
ghost use Rattle.mt_model.specs.Request.{Request, Overlong, Unreadable, IsRequest};
ghost use Rattle.mt_model.specs.Run.{Answers, IsRun};
ghost use Rattle.mt_model.specs.Said.{Said, IsStatementSaid, IsCommandSaid};
ghost use Rattle.mt_model.specs.Service.{IsInStep, Service, catalogue_of, view_of};

use mt_adminlang::{commands_are_determined, each_command_text_gives_something};
use mt_grammar::{each_statement_text_gives_something, statements_are_determined};

/// Each line says one thing.
pub fn each_line_says_one_thing()
    ensures { (line : Line) (a b : Request) → IsRequest line a → IsRequest line b → a ≡ b }
{
    statements_are_determined();
    commands_are_determined();
}

/// Each text says something to a tenant's database, and to the service as a command.
pub fn each_text_says_something()
    ensures statement { (text : List ℕ) → (said : Said SimpleStmt) × IsStatementSaid text said }
    ensures command { (text : List ℕ) → (said : Said AdminCmd) × IsCommandSaid text said }
{
    each_statement_text_gives_something();
    each_command_text_gives_something();
}

/// A line is refused as too long, or as not readable, exactly where it is so, whatever the service.
pub fn unread_lines_need_no_service()
    ensures too_long { (service next : Service) (line : Line) (request : Request) (reply : Reply)
        → Answers service_rules service line request reply next
        → (reply ≡ Refused code.LineTooLong) ↔ (request ≡ Overlong) }
    ensures not_readable { (service next : Service) (line : Line) (request : Request) (reply : Reply)
        → Answers service_rules service line request reply next
        → (reply ≡ Refused code.LineNotReadable) ↔ (request ≡ Unreadable) }
{}

/// A line that is refused, or answered for want of memory, leaves the service as it was.
pub fn refused_lines_change_nothing()
    ensures refused { (service next : Service) (line : Line) (request : Request) (code : Code)
        → Answers service_rules service line request (Refused code) next → next ≡ service }
    ensures forgone { (service next : Service) (line : Line) (request : Request)
        → Answers service_rules service line request Memory next → next ≡ service }
{}

/// Each reply prints something, of the service and of its first path.
pub fn each_reply_prints_something()
    ensures service { EachStepPrints service_rules }
    ensures first_path { EachStepPrints first_path }
{}

/// Whatever lines are sent, the replies to one tenant's lines are those of a private database that
/// is given that tenant's own events alone.
pub fn isolation()
    ensures { (first last : Service) (lines : List Line) (requests : List Request) (replies : List Reply) (tenant : ℕ)
        → IsRun service_rules first lines requests replies last
        → replies_to tenant requests replies ≡ private_replies (view_of first tenant) (own_events tenant requests replies) }
{}

/// Two runs that begin with the same view of a tenant and have the same own events of it give it the
/// same replies, whatever other tenants send.
pub fn two_worlds()
    ensures { (first last other_first other_last : Service) (lines other_lines : List Line)
        (requests other_requests : List Request) (replies other_replies : List Reply) (tenant : ℕ)
        → IsRun service_rules first lines requests replies last
        → IsRun service_rules other_first other_lines other_requests other_replies other_last
        → view_of first tenant ≡ view_of other_first tenant
        → own_events tenant requests replies ≡ own_events tenant other_requests other_replies
        → replies_to tenant requests replies ≡ replies_to tenant other_requests other_replies }
{}

/// A schema step that is read is well formed: what it makes has names.
pub fn read_commands_are_well_formed()
    ensures { (text : List ℕ) (command : AdminCmd) → ReadsAs SpellsCommand text command → IsSchemaStep command → IsWellFormed command }
{}

/// An accepted schema step makes of the service's catalogue what it makes of a catalogue alone, and what
/// is kept of each tenant stays in step with the base tables.
pub fn schema_steps_are_the_catalogues()
    ensures catalogue { (service : Service) (command : AdminCmd) → IsInStep service → command_refusal service command ≡ None → catalogue_of (applied service command) ≡ stepped (catalogue_of service) command }
    ensures in_step { (service : Service) (command : AdminCmd) → IsInStep service → IsInStep (applied service command) }
{}
