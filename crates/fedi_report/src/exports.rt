//! The tables that an operator exports from a store. None of them names a recipient.

ghost use Rattle.std.specs.Prelude.{◌≡◌, ◌∷◌, ◌++◌, ◌<◌, OnOk, length, map, option_copied};
ghost use Rattle.std.specs.Prelude.{slice_get};
ghost use Rattle.csv.specs.Writing.{default_writer, row_text};
ghost use Rattle.fedi_objects.specs.Kinds.{kind_name, state_name};
ghost use Rattle.fedi_queue.specs.Rows.{id_at};
ghost use Rattle.fedi_report.specs.Exports.{activities_text, activity_columns, activity_row};
ghost use Rattle.fedi_report.specs.Exports.{activity_rows, actors_text, delivery_columns};
ghost use Rattle.fedi_report.specs.Exports.{member_columns, member_row, queue_text, queued_row};
ghost use Rattle.fedi_report.specs.Exports.{yes_or_no};
ghost use Rattle.fedi_report.specs.Tables.{IsBetweenRows, Reports, rows_text, written};
ghost use Rattle.fedi_logged.specs.Endings.{output_by};
ghost use Rattle.fedi_town.specs.Collections.{text_of};
ghost use Rattle.fedi_town.specs.Histories.{town};
ghost use Rattle.fedi_town.specs.Legal.{IsLegal};

use crate::tables::{ReportFault, Table, csv_row, write_table};
use csv::Writer;
use fedi_address::Iri;
use fedi_core::Core;
use fedi_effects::{Facts, Steps};
use fedi_outside::{Keeper, Sink};
use fedi_queue::QueueRow;
use fedi_register::Kept;
use fedi_town::Actor;
use fedi_visible::Shelf;
use itoa::Buffer;
use std::alloc::{AllocError, Global};
use std::marker::Brand;
use std::sync::ledger::{Blank, Ledger};

// The fields of one array are borrowed for the same time, so static fields are returned for as long
// as the value that they describe.

fn locked_text(member: &Actor) -> &str
    ensures { result.now ≡ yes_or_no member.now.locked }
{
    if member.locked { "yes" } else { "no" }
}

pub(crate) fn kind_text(act: &Kept) -> &str
    ensures { result.now ≡ kind_name act.now.activity.kind }
{
    act.kind().name()
}

pub(crate) fn state_text(act: &Kept) -> &str
    ensures { result.now ≡ state_name act.now.state }
{
    act.state().name()
}

pub(crate) fn id_text(id: Option<&Iri>) -> &str
    ensures { result.now ≡ text_of (option_copied id.entry) }
{
    match id {
        Some(id) => id.text(),
        None => "",
    }
}

// ---- members

#[derive(Drop)]
struct Members<'a> {
    facts: &'a Facts,
}

fn write_member(
    alloc: Global,
    facts: &Facts,
    member: &Actor,
    text: &mut Writer<Vec<u8>>,
) -> Result<(), AllocError>
    requires { IsBetweenRows text.old }
    ensures between { OnOk result (IsBetweenRows text.new) }
    ensures row { OnOk result (written text.new
        ≡ written text.old ++ row_text default_writer (member_row facts.now.town member.now)) }
{
    let followers = facts.followers_of(alloc, &member.id)?;
    let (mut made, mut following) = (Buffer::new(), Buffer::new());
    csv_row(
        text,
        &[
            member.name.text().as_bytes(),
            locked_text(member).as_bytes(),
            made.format(facts.count_of(&member.id)).as_bytes(),
            following.format(followers.len()).as_bytes(),
        ],
    )
}

impl Table for Members<'_> {
    ghost rows = { λ m. map (member_row m.facts.now.town) m.facts.now.town.actors };

    fn count(&self) -> usize {
        self.facts.actors().len()
    }

    #[tactic(auto, using(crate::proofs::Exported::mapped_row_at))]
    fn write_row(
        &self,
        alloc: Global,
        position: usize,
        text: &mut Writer<Vec<u8>>,
    ) -> Result<(), AllocError> {
        match self.facts.actors().get(position) {
            Some(member) => write_member(alloc, self.facts, member, text),
            None => Ok(()),
        }
    }
}

fn write_actors<K: Sink>(alloc: Global, facts: &Facts, sink: &mut K) -> Result<(), ReportFault>
    ensures { Reports (output_by K.sent K.write_faults sink.old)
        (output_by K.sent K.write_faults sink.new) (rows_text (member_columns
        ∷ map (member_row facts.now.town) facts.now.town.actors)) result }
{
    let columns = [
        b"name".as_slice(),
        b"locked".as_slice(),
        b"activities".as_slice(),
        b"followers".as_slice(),
    ];
    write_table(alloc, &Members { facts }, &columns, sink)
}

// ---- activities

#[derive(Drop)]
struct Activities<'a> {
    facts: &'a Facts,
}

fn counted_at<'a, L: Ledger>(facts: &'a Facts, position: usize, blank: Blank) -> Option<&'a Kept>
    requires name { blank.name ≡ L.name }
    requires parts { blank.parts ≡ L.parts }
    requires some { 0 < blank.parts }
    ensures { option_copied result ≡ slice_get facts.now.town.acts position }
{
    if position >= facts.activities() {
        return None;
    }
    let mut steps = Steps::<L>::new(blank);
    Some(facts.shown(position, &mut steps))
}

// The activity at this position in the order of acceptance, if there is one.
pub(crate) fn activity_at(facts: &Facts, position: usize) -> Option<&Kept>
    ensures { option_copied result ≡ slice_get facts.now.town.acts position }
{
    counted_at::<Brand>(facts, position, Blank::new(1))
}

fn write_activity(position: usize, act: &Kept, text: &mut Writer<Vec<u8>>) -> Result<(), AllocError>
    requires { IsBetweenRows text.old }
    ensures between { OnOk result (IsBetweenRows text.new) }
    ensures row { OnOk result (written text.new
        ≡ written text.old ++ row_text default_writer (activity_row position act.now)) }
{
    let mut digits = Buffer::new();
    let moment = act.moment().text();
    csv_row(
        text,
        &[
            digits.format(position).as_bytes(),
            id_text(act.id()).as_bytes(),
            act.author().text().as_bytes(),
            kind_text(act).as_bytes(),
            state_text(act).as_bytes(),
            moment.as_slice(),
        ],
    )
}

impl Table for Activities<'_> {
    ghost rows = { λ a. activity_rows 0 a.facts.now.town.acts };

    #[tactic(auto, using(crate::proofs::Exported::activity_rows_length))]
    fn count(&self) -> usize {
        self.facts.activities()
    }

    #[tactic(auto, using(crate::proofs::Exported::activity_text_at))]
    fn write_row(
        &self,
        _alloc: Global,
        position: usize,
        text: &mut Writer<Vec<u8>>,
    ) -> Result<(), AllocError> {
        match activity_at(self.facts, position) {
            Some(act) => write_activity(position, act, text),
            None => Ok(()),
        }
    }
}

/// Writes a table with the columns of the export of activities.
pub(crate) fn write_activity_table<T: Table, K: Sink>(
    alloc: Global,
    table: &T,
    sink: &mut K,
) -> Result<(), ReportFault>
    ensures { Reports (output_by K.sent K.write_faults sink.old)
        (output_by K.sent K.write_faults sink.new)
        (rows_text (activity_columns ∷ T.rows table.now)) result }
{
    let columns = [
        b"place".as_slice(),
        b"id".as_slice(),
        b"actor".as_slice(),
        b"type".as_slice(),
        b"state".as_slice(),
        b"moment".as_slice(),
    ];
    write_table(alloc, table, &columns, sink)
}

// ---- deliveries

#[derive(Drop)]
struct Deliveries<'a> {
    facts: &'a Facts,
    rows: &'a [QueueRow],
}

fn id_at(facts: &Facts, position: usize) -> Option<&Iri>
    ensures { option_copied result ≡ id_at facts.now.town.acts position }
{
    activity_at(facts, position)?.id()
}

fn write_delivery(
    facts: &Facts,
    row: &QueueRow,
    text: &mut Writer<Vec<u8>>,
) -> Result<(), AllocError>
    requires { IsBetweenRows text.old }
    ensures between { OnOk result (IsBetweenRows text.new) }
    ensures row { OnOk result (written text.new
        ≡ written text.old ++ row_text default_writer (queued_row facts.now.town.acts row.now)) }
{
    let (mut attempts, mut due) = (Buffer::new(), Buffer::new());
    csv_row(
        text,
        &[
            id_text(id_at(facts, row.activity)).as_bytes(),
            row.recipient.host().as_bytes(),
            attempts.format(row.attempts).as_bytes(),
            due.format(row.due).as_bytes(),
        ],
    )
}

impl Table for Deliveries<'_> {
    ghost rows = { λ d. map (queued_row d.facts.now.town.acts) d.rows.now };

    fn count(&self) -> usize {
        self.rows.len()
    }

    #[tactic(auto, using(crate::proofs::Exported::mapped_row_at))]
    fn write_row(
        &self,
        _alloc: Global,
        position: usize,
        text: &mut Writer<Vec<u8>>,
    ) -> Result<(), AllocError> {
        match self.rows.get(position) {
            Some(row) => write_delivery(self.facts, row, text),
            None => Ok(()),
        }
    }
}

fn write_queue<K: Sink>(
    alloc: Global,
    facts: &Facts,
    rows: &[QueueRow],
    sink: &mut K,
) -> Result<(), ReportFault>
    ensures { Reports (output_by K.sent K.write_faults sink.old)
        (output_by K.sent K.write_faults sink.new)
        (rows_text (delivery_columns ∷ map (queued_row facts.now.town.acts) rows.now)) result }
{
    let columns = [
        b"activity".as_slice(),
        b"host".as_slice(),
        b"attempts".as_slice(),
        b"due".as_slice(),
    ];
    write_table(alloc, &Deliveries { facts, rows }, &columns, sink)
}

// ---- tables of a machine

/// Writes the members as comma-separated values (RFC 4180), in the order in which they were made:
/// `name`; `locked`, which is `yes` if Follows of the member wait for an answer; and the numbers of
/// its `activities` and `followers`. It takes the memory of a block of rows and one word for each
/// follower of one member. `WriteFault` means that a write failed, which the sink counts once, and
/// `Memory` that memory ran out; in both cases a prefix of the text was written.
#[tactic(auto, unfolding(crate::specs::Exports::actors_text))]
pub fn csv_actors<S: Shelf + Drop, P: Keeper, K: Sink>(
    alloc: Global,
    core: &Core<S, P>,
    sink: &mut K,
) -> Result<(), ReportFault>
    ensures { Reports (output_by K.sent K.write_faults sink.old)
        (output_by K.sent K.write_faults sink.new) (actors_text (town core.now.history)) result }
{
    write_actors(alloc, core.facts(), sink)
}

/// Writes the activities in the order of acceptance: the `place`, counted from 0, the `id`, the
/// `actor`, which is the author, the `type`, the `state` and the `moment` of acceptance (RFC 3339).
/// No recipient is named. It takes the memory of a block of rows. The errors are those of
/// `csv_actors`.
#[tactic(auto, unfolding(crate::specs::Exports::activities_text))]
pub fn csv_activities<S: Shelf + Drop, P: Keeper, K: Sink>(
    alloc: Global,
    core: &Core<S, P>,
    sink: &mut K,
) -> Result<(), ReportFault>
    ensures { Reports (output_by K.sent K.write_faults sink.old)
        (output_by K.sent K.write_faults sink.new)
        (activities_text (town core.now.history)) result }
{
    let facts = core.facts();
    write_activity_table(alloc, &Activities { facts }, sink)
}

/// Writes the deliveries that have not ended (ActivityPub, section 7.1), in the order of acceptance
/// and of recipients: the id of the `activity`; the recipient's `host`, but never its name; the
/// number of `attempts`; and the time from which the next one is `due`, in seconds since
/// 1970-01-01T00:00:00Z. It takes the memory of a block of rows. The errors are those of
/// `csv_actors`.
#[tactic(auto, using(crate::proofs::RowLemmas::queue_rows), unfolding(crate::specs::Exports::queue_text))]
pub fn csv_queue<S: Shelf + Drop, P: Keeper, K: Sink>(
    alloc: Global,
    core: &Core<S, P>,
    sink: &mut K,
) -> Result<(), ReportFault>
    requires { IsLegal core.now.history }
    ensures { Reports (output_by K.sent K.write_faults sink.old)
        (output_by K.sent K.write_faults sink.new) (queue_text (town core.now.history)) result }
{
    write_queue(alloc, core.facts(), core.rows(), sink)
}
