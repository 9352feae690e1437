//! What a server is asked for nbdinfo, and what is printed of its answer. Nothing is printed here.

ghost use Rattle.std.specs.Prelude.{◌≡◌, ◌≢◌, ◌≤◌, ◌^◌, IfErr, IfOk, None, Ok, false, true};
ghost use Rattle.lnbd_extents.specs.Lists.{span};
ghost use Rattle.lnbd_info.specs.Map.{AreFilled};
ghost use Rattle.lnbd_link.specs.Count.{Rises, patience};
ghost use Rattle.lnbd_cli.specs.Heard.{IsMapText, IsSumsText, IsToldAs, Says, SaysExport, SaysList, SaysMap, Unheard};
ghost use Rattle.lnbd_cli.specs.Heard.{end_of_entries, export_text, exports_text, extents_text, heard, is_allocation, is_heard, is_so};
ghost use Rattle.lnbd_cli.specs.Ends.{status_of_fault};
ghost use Rattle.lnbd_args.specs.declared.asked.What.TheVariants as wish;
ghost use Rattle.lnbd_cli.specs.declared.ending.Fault.TheVariants as fault;

use crate::ending::{Fault, Ruling};
use lnbd_args::What;
use lnbd_ask::{InfoFault, collect, list, map};
use lnbd_info::{
    Entry, Found, is_true, write_json, write_listing, write_map, write_map_json, write_size,
    write_totals, write_totals_json,
};
use lnbd_link::Wires;
use lnbd_model::{Extent, NoMemory, Place, Text};
use std::alloc::Global;

/// What is asked of a server.
#[derive(Debug, Drop)]
pub(crate) struct Question {
    pub(crate) what: What,
    /// It is told as JSON, and else as text.
    pub(crate) json: bool,
    pub(crate) place: Place,
}

/// What is printed, and how the run ends once it is: whether what was asked is true, or the code by which an export was refused.
#[derive(Debug, Drop)]
pub(crate) struct News {
    pub(crate) text: Vec<u8>,
    pub(crate) end: Result<bool, u32>,
}

/// What was heard, unless memory ran out for its text.
fn heard(made: Result<News, NoMemory>) -> Result<News, Fault>
    ensures { result ≡ heard made }
{
    match made {
        Ok(news) => Ok(news),
        Err(_) => Err(Fault::NoMemory),
    }
}

/// What is told of a fault of the asking. A context that was not agreed is told with its name.
fn told(context: Option<Text>, fault: InfoFault) -> Fault
    requires { context ≡ None → fault ≢ InfoFault.NoContext }
    ensures told { IsToldAs fault context result }
    ensures known { is_heard (status_of_fault result) ≡ true }
{
    match (fault, context) {
        (InfoFault::Peer { option, code }, _) => Fault::Told { option, code },
        (InfoFault::Broke(broken), _) => Fault::Broke(broken),
        (InfoFault::Link { .. }, _) => Fault::Link,
        (InfoFault::Silent { .. }, _) => Fault::Silent,
        (InfoFault::NoMemory, _) => Fault::NoMemory,
        (InfoFault::NoContext, Some(name)) => Fault::Rule(Ruling::NoContext(name)),
        (InfoFault::NoContext, None) => unreachable!(),
    }
}

// One export.

/// Whether it is true, where that is asked.
fn is_so(what: &What, found: &Found) -> bool
    ensures { result ≡ is_so what.now found.now }
{
    match what {
        What::Test(predicate) => is_true(*predicate, &found.info),
        What::Listing | What::Size | What::List | What::Map(_) | What::Totals(_) => true,
    }
}

/// The text of a plain listing.
fn listing(alloc: Global, json: bool, found: Found) -> Result<Vec<u8>, NoMemory>
    ensures { IfOk result (λ text. text.items ≡ export_text wish.Listing json found) }
{
    let mut text = Vec::new(alloc);
    let mut entries = Vec::new(alloc);
    entries.push(Entry::of_found(alloc, found)?)?;
    if json {
        write_json(alloc, &entries, true, &mut text)?;
    } else {
        write_listing(alloc, &entries, true, &mut text)?;
    }
    Ok(text)
}

/// The text of a size.
fn size(alloc: Global, json: bool, found: Found) -> Result<Vec<u8>, NoMemory>
    ensures { IfOk result (λ text. text.items ≡ export_text wish.Size json found) }
{
    let mut text = Vec::new(alloc);
    write_size(alloc, &found.info, &mut text)?;
    Ok(text)
}

/// What is printed of it.
fn export_text(alloc: Global, what: &What, json: bool, found: Found) -> Result<Vec<u8>, NoMemory>
    ensures { IfOk result (λ text. text.items ≡ export_text what.now json found) }
{
    match what {
        What::Listing => listing(alloc, json, found),
        What::Size => size(alloc, json, found),
        What::Test(_) | What::List | What::Map(_) | What::Totals(_) => Ok(Vec::new(alloc)),
    }
}

fn export_news(alloc: Global, what: &What, json: bool, found: Found) -> Result<News, NoMemory>
    ensures text { IfOk result (λ news. news.text.items ≡ export_text what.now json found) }
    ensures end { IfOk result (λ news. news.end ≡ Ok (is_so what.now found)) }
{
    let holds = is_so(what, &found);
    let text = export_text(alloc, what, json, found)?;
    Ok(News {
        text,
        end: Ok(holds),
    })
}

/// Asks for the export at this place.
fn hear_export<W: Wires>(
    alloc: Global,
    what: &What,
    json: bool,
    place: &Place,
    wires: &mut W,
) -> Result<News, Fault>
    ensures says { IfOk result (λ news. SaysExport what.now json place.now (W.told wires.old) (W.told wires.new) news.text.items news.end) }
    ensures fails { IfErr result (Unheard wish.Listing place.now (W.told wires.old) (W.told wires.new)) }
    ensures link { IfErr result (λ why. why ≡ fault.Link → Rises 1 (W.faults wires.old) (W.faults wires.new)) }
    ensures known { IfErr result (λ why. is_heard (status_of_fault why) ≡ true) }
    ensures silent { IfErr result (λ why. why ≡ fault.Silent → Rises patience (W.idles wires.old) (W.idles wires.new)) }
{
    match collect(alloc, place, wires) {
        Ok(found) => heard(export_news(alloc, what, json, found)),
        Err(fault) => Err(told(None, fault)),
    }
}

// The exports of a server.

/// How it ends behind the listing of these.
fn end_of_entries(entries: &[Entry]) -> Result<bool, u32>
    ensures { result ≡ end_of_entries entries.now }
{
    'entries: for entry in entries {
        if let Err(code) = &entry.told {
            return Err(*code);
        }
    }
    Ok(true)
}

fn exports_text(alloc: Global, json: bool, entries: &[Entry]) -> Result<Vec<u8>, NoMemory>
    ensures { IfOk result (λ text. text.items ≡ exports_text json entries.now) }
{
    let mut text = Vec::new(alloc);
    if json {
        write_json(alloc, entries, false, &mut text)?;
    } else {
        write_listing(alloc, entries, false, &mut text)?;
    }
    Ok(text)
}

fn list_news(alloc: Global, json: bool, entries: &[Entry]) -> Result<News, NoMemory>
    ensures text { IfOk result (λ news. news.text.items ≡ exports_text json entries.now) }
    ensures end { IfOk result (λ news. news.end ≡ end_of_entries entries.now) }
{
    let text = exports_text(alloc, json, entries)?;
    Ok(News {
        text,
        end: end_of_entries(entries),
    })
}

/// Asks for the exports of the server at this place.
fn hear_list<W: Wires>(
    alloc: Global,
    json: bool,
    place: &Place,
    wires: &mut W,
) -> Result<News, Fault>
    ensures says { IfOk result (λ news. SaysList json place.now (W.told wires.old) (W.told wires.new) news.text.items news.end) }
    ensures fails { IfErr result (Unheard wish.List place.now (W.told wires.old) (W.told wires.new)) }
    ensures link { IfErr result (λ why. why ≡ fault.Link → Rises 1 (W.faults wires.old) (W.faults wires.new)) }
    ensures known { IfErr result (λ why. is_heard (status_of_fault why) ≡ true) }
    ensures silent { IfErr result (λ why. why ≡ fault.Silent → Rises patience (W.idles wires.old) (W.idles wires.new)) }
{
    match list(alloc, place, wires) {
        Ok(entries) => heard(list_news(alloc, json, entries.as_slice())),
        Err(fault) => Err(told(None, fault)),
    }
}

// A map.

/// Whether the flags of this context have words.
fn is_allocation(context: &Text) -> bool
    ensures { result ≡ is_allocation context.now }
{
    context.as_str() == "base:allocation"
}

fn extents_text(
    alloc: Global,
    json: bool,
    allocation: bool,
    map: &[Extent],
) -> Result<Vec<u8>, NoMemory>
    requires { span map.now ≤ 2 ^ 63 }
    ensures { IfOk result (λ text. text.items ≡ extents_text json allocation map.now) }
{
    let mut text = Vec::new(alloc);
    if json {
        write_map_json(alloc, map, allocation, &mut text)?;
    } else {
        write_map(alloc, map, allocation, &mut text)?;
    }
    Ok(text)
}

fn sums_json(alloc: Global, allocation: bool, map: &[Extent]) -> Result<Vec<u8>, NoMemory>
    requires { span map.now ≤ 2 ^ 63 }
    ensures { IfOk result (λ text. IsSumsText true allocation map.now text.items) }
{
    let mut text = Vec::new(alloc);
    write_totals_json(alloc, map, allocation, &mut text)?;
    Ok(text)
}

fn sums_lines(alloc: Global, allocation: bool, map: &[Extent]) -> Result<Vec<u8>, NoMemory>
    requires filled { AreFilled map.now }
    requires room { span map.now ≤ 2 ^ 63 }
    ensures { IfOk result (λ text. IsSumsText false allocation map.now text.items) }
{
    let mut text = Vec::new(alloc);
    write_totals(alloc, map, allocation, &mut text)?;
    Ok(text)
}

/// The text of a map in this context, or of its sums.
fn map_text(
    alloc: Global,
    sums: bool,
    json: bool,
    context: &Text,
    map: &[Extent],
) -> Result<Vec<u8>, NoMemory>
    requires filled { AreFilled map.now }
    requires room { span map.now ≤ 2 ^ 63 }
    ensures { IfOk result (λ text. IsMapText sums json context.now map.now text.items) }
{
    let allocation = is_allocation(context);
    match (sums, json) {
        (false, json) => extents_text(alloc, json, allocation, map),
        (true, false) => sums_lines(alloc, allocation, map),
        (true, true) => sums_json(alloc, allocation, map),
    }
}

fn map_news(
    alloc: Global,
    sums: bool,
    json: bool,
    context: &Text,
    map: &[Extent],
) -> Result<News, NoMemory>
    requires filled { AreFilled map.now }
    requires room { span map.now ≤ 2 ^ 63 }
    ensures text { IfOk result (λ news. IsMapText sums json context.now map.now news.text.items) }
    ensures end { IfOk result (λ news. news.end ≡ Ok true) }
{
    let text = map_text(alloc, sums, json, context, map)?;
    Ok(News {
        text,
        end: Ok(true),
    })
}

/// Asks for the map of the export at this place in this context, and says what is printed of it or of its sums.
fn hear_map<W: Wires>(
    alloc: Global,
    sums: bool,
    json: bool,
    context: Text,
    place: &Place,
    wires: &mut W,
) -> Result<News, Fault>
    ensures says { IfOk result (λ news. SaysMap sums json context place.now (W.told wires.old) (W.told wires.new) news.text.items news.end) }
    ensures fails { IfErr result (Unheard (wish.Map context) place.now (W.told wires.old) (W.told wires.new)) }
    ensures link { IfErr result (λ why. why ≡ fault.Link → Rises 1 (W.faults wires.old) (W.faults wires.new)) }
    ensures known { IfErr result (λ why. is_heard (status_of_fault why) ≡ true) }
    ensures silent { IfErr result (λ why. why ≡ fault.Silent → Rises patience (W.idles wires.old) (W.idles wires.new)) }
{
    match map(alloc, place, &context, wires) {
        Ok(extents) => heard(map_news(alloc, sums, json, &context, extents.as_slice())),
        Err(fault) => Err(told(Some(context), fault)),
    }
}

/// Asks the server, and says what is printed of its answer.
pub(crate) fn hear<W: Wires>(
    alloc: Global,
    question: Question,
    wires: &mut W,
) -> Result<News, Fault>
    ensures says { IfOk result (λ news. Says question.what question.json question.place (W.told wires.old) (W.told wires.new) news.text.items news.end) }
    ensures fails { IfErr result (Unheard question.what question.place (W.told wires.old) (W.told wires.new)) }
    ensures link { IfErr result (λ why. why ≡ fault.Link → Rises 1 (W.faults wires.old) (W.faults wires.new)) }
    ensures known { IfErr result (λ why. is_heard (status_of_fault why) ≡ true) }
    ensures silent { IfErr result (λ why. why ≡ fault.Silent → Rises patience (W.idles wires.old) (W.idles wires.new)) }
{
    let Question { what, json, place } = question;
    match what {
        What::List => hear_list(alloc, json, &place, wires),
        What::Listing => hear_export(alloc, &What::Listing, json, &place, wires),
        What::Size => hear_export(alloc, &What::Size, json, &place, wires),
        What::Test(predicate) => hear_export(alloc, &What::Test(predicate), json, &place, wires),
        What::Map(context) => hear_map(alloc, false, json, context, &place, wires),
        What::Totals(context) => hear_map(alloc, true, json, context, &place, wires),
    }
}
