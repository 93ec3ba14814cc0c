//! The lines that are written, compact JSON without their ends.
ghost use Rattle.std.specs.Prelude.{◌≡◌, map, IfOk, OnOk, IsTrue, false};
ghost use Rattle.serde_json.specs.View.{view, members_view};
ghost use Rattle.serde_json.specs.Data.{array, string, object, no_members};
ghost use Rattle.serde_json.specs.Written.{has_float, compact_text};
ghost use Rattle.ip_ranges.specs.AddressText.{canonical_text};
ghost use Rattle.kube_lines.specs.OutputLines.{put_text, put_data, address_strings, pending_text};
ghost use Rattle.kube_lines.specs.OutputLines.{pending_data, accepted_text, refused_text};
ghost use Rattle.kube_lines.specs.OutputLines.{refused_data, is_taken, took_text, took_data};
ghost use Rattle.kube_lines.specs.OutputLines.{announce_text, withdraw_text, address_data};
ghost use Rattle.kube_lines.specs.OutputLines.{seen_text, seen_data, send_text, send_data, update_text, update_data, record_text, record_data};
ghost use Rattle.kube_lines.specs.OutputLines.{trial_text, trial_data, pair_text, pair_number};
ghost use Rattle.kube_lines.specs.OutputLines.{with_texts, with_numbers, with_addresses};
ghost use Rattle.kube_lines.specs.OutputLines.{told_data, bytes_data};

use ip_ranges::{Address, print_address};
use kube_labels::Text;
use kube_model::{ConfigFault, Key, LaneName, Put, Reason};
use mlb_base::NoMemory;
use serde_json::{Map, Value, put as put_member};
use std::alloc::Global;

/// The text of a value without floats.
fn written(alloc: Global, value: &Value) -> Result<Text, NoMemory>
    requires { has_float (view value.now) ≡ false }
    ensures { IfOk result (λ line. line ≡ compact_text (view value.now)) }
{
    Ok(Text::from_string(value.to_string(alloc)?))
}

/// An address as it is written.
fn address_string(alloc: Global, address: &Address) -> Result<Value, NoMemory>
    ensures { IfOk result (λ v. view v ≡ string (canonical_text address.now)) }
{
    Ok(Value::String(print_address(alloc, address)?))
}

fn addresses_value(alloc: Global, addresses: &[Address]) -> Result<Value, NoMemory>
    ensures { IfOk result (λ v. view v ≡ array (address_strings addresses.now)) }
{
    let mut strings = Vec::new(alloc);
    for address in addresses {
        let string = address_string(alloc, address)?;
        strings.push(string)?;
    }
    Ok(Value::Array(strings))
}

/// The texts come to the members, by their names.
fn put_texts(
    members: &mut Map<String, Value>,
    alloc: Global,
    texts: &[(&str, &str)],
) -> Result<(), NoMemory>
    ensures { OnOk result (members_view members.new.entries
        ≡ with_texts (map pair_text texts.now) (members_view members.old.entries)) }
{
    for &(name, text) in texts {
        put_member(members, alloc, name, Value::try_from_str(alloc, text)?)?;
    }
    Ok(())
}

/// The numbers come to the members, by their names.
fn put_numbers(
    members: &mut Map<String, Value>,
    alloc: Global,
    numbers: &[(&str, u64)],
) -> Result<(), NoMemory>
    ensures { OnOk result (members_view members.new.entries
        ≡ with_numbers (map pair_number numbers.now) (members_view members.old.entries)) }
{
    for &(name, number) in numbers {
        put_member(members, alloc, name, Value::from(number))?;
    }
    Ok(())
}

/// An object of the texts and the numbers, by their names, in the byte order of these; of two with
/// one name the later one. Texts come before numbers.
pub fn object_value(
    alloc: Global,
    texts: &[(&str, &str)],
    numbers: &[(&str, u64)],
) -> Result<Value, NoMemory>
    ensures { IfOk result (λ v. view v
        ≡ object (with_numbers (map pair_number numbers.now)
        (with_texts (map pair_text texts.now) no_members))) }
{
    let mut members = Map::new(alloc);
    match put_both(&mut members, alloc, texts, numbers) {
        Ok(()) => Ok(Value::Object(members)),
        Err(NoMemory) => {
            drop(members);
            Err(NoMemory)
        }
    }
}

/// The texts and the numbers come to the members.
fn put_both(
    members: &mut Map<String, Value>,
    alloc: Global,
    texts: &[(&str, &str)],
    numbers: &[(&str, u64)],
) -> Result<(), NoMemory>
    ensures { OnOk result (members_view members.new.entries
        ≡ with_numbers (map pair_number numbers.now)
        (with_texts (map pair_text texts.now) (members_view members.old.entries))) }
{
    put_texts(members, alloc, texts)?;
    put_numbers(members, alloc, numbers)
}

/// An object of the addresses, the texts and the numbers.
fn addressed_value(
    alloc: Global,
    addresses: &[Address],
    texts: &[(&str, &str)],
    numbers: &[(&str, u64)],
) -> Result<Value, NoMemory>
    ensures { IfOk result (λ v. view v ≡ object (with_addresses addresses.now
        (with_numbers (map pair_number numbers.now)
        (with_texts (map pair_text texts.now) no_members)))) }
{
    let mut members = Map::new(alloc);
    match put_all(&mut members, alloc, addresses, texts, numbers) {
        Ok(()) => Ok(Value::Object(members)),
        Err(NoMemory) => {
            drop(members);
            Err(NoMemory)
        }
    }
}

/// The same, and the addresses.
fn put_all(
    members: &mut Map<String, Value>,
    alloc: Global,
    addresses: &[Address],
    texts: &[(&str, &str)],
    numbers: &[(&str, u64)],
) -> Result<(), NoMemory>
    ensures { OnOk result (members_view members.new.entries ≡ with_addresses addresses.now
        (with_numbers (map pair_number numbers.now)
        (with_texts (map pair_text texts.now) (members_view members.old.entries)))) }
{
    put_both(members, alloc, texts, numbers)?;
    put_member(
        members,
        alloc,
        "addresses",
        addresses_value(alloc, addresses)?,
    )?;
    Ok(())
}

fn put_value(alloc: Global, put: &Put) -> Result<Value, NoMemory>
    ensures { IfOk result (λ v. view v ≡ put_data put.now) }
{
    addressed_value(
        alloc,
        put.holding.addresses.as_slice(),
        &[
            ("mark", put.holding.mark.as_str()),
            ("name", put.key.name.as_str()),
            ("namespace", put.key.namespace.as_str()),
            ("op", "put"),
            ("pool", put.holding.pool.as_str()),
        ],
        &[("version", put.version)],
    )
}

/// The line of a put.
pub fn put_line(alloc: Global, put: &Put) -> Result<Text, NoMemory>
    ensures { IfOk result (λ line. line ≡ put_text put.now) }
{
    let value = put_value(alloc, put)?;
    written(alloc, &value)
}

fn pending_value(alloc: Global, key: &Key, reason: Reason) -> Result<Value, NoMemory>
    ensures { IfOk result (λ v. view v ≡ pending_data key.now reason) }
{
    object_value(
        alloc,
        &[
            ("name", key.name.as_str()),
            ("namespace", key.namespace.as_str()),
            ("op", "pending"),
            ("reason", reason.as_str()),
        ],
        &[],
    )
}

/// The line of a service that gets no address.
pub fn pending_line(alloc: Global, key: &Key, reason: Reason) -> Result<Text, NoMemory>
    ensures { IfOk result (λ line. line ≡ pending_text key.now reason) }
{
    let value = pending_value(alloc, key, reason)?;
    written(alloc, &value)
}

/// The line of a configuration that was accepted.
pub fn accepted_line(alloc: Global) -> Result<Text, NoMemory>
    ensures { IfOk result (λ line. line ≡ accepted_text) }
{
    Text::new(alloc, "{\"op\":\"config\",\"result\":\"accepted\"}")
}

fn refused_value(alloc: Global, fault: &ConfigFault) -> Result<Value, NoMemory>
    ensures { IfOk result (λ v. view v ≡ refused_data fault.now) }
{
    object_value(
        alloc,
        &[
            ("fault", fault.cause.as_str()),
            ("kind", fault.kind.as_str()),
            ("name", fault.name.as_str()),
            ("op", "config"),
            ("result", "refused"),
        ],
        &[],
    )
}

/// The line of a configuration that was refused.
pub fn refused_line(alloc: Global, fault: &ConfigFault) -> Result<Text, NoMemory>
    ensures { IfOk result (λ line. line ≡ refused_text fault.now) }
{
    let value = refused_value(alloc, fault)?;
    written(alloc, &value)
}

fn took_value(alloc: Global, lane: LaneName, number: u64) -> Result<Value, NoMemory>
    ensures { IfOk result (λ v. view v ≡ took_data lane number) }
{
    object_value(
        alloc,
        &[("lane", lane.as_str()), ("op", "took")],
        &[("n", number)],
    )
}

/// The line that tells that the event of a lane's line was taken: the line of this number, from 1.
/// Events are taken of each lane but the input.
pub fn took_line(alloc: Global, lane: LaneName, number: u64) -> Result<Text, NoMemory>
    requires { IsTrue (is_taken lane) }
    ensures { IfOk result (λ line. line ≡ took_text lane number) }
{
    let value = took_value(alloc, lane, number)?;
    written(alloc, &value)
}

fn seen_value(alloc: Global, events: u64) -> Result<Value, NoMemory>
    ensures { IfOk result (λ v. view v ≡ seen_data events) }
{
    object_value(alloc, &[("op", "seen")], &[("events", events)])
}

/// The line that tells that a frame was answered by what is shown after so many events.
pub fn seen_line(alloc: Global, events: u64) -> Result<Text, NoMemory>
    ensures { IfOk result (λ line. line ≡ seen_text events) }
{
    let value = seen_value(alloc, events)?;
    written(alloc, &value)
}

/// What is to be done with the address of this text.
fn told_value<'a>(alloc: Global, address: &'a str, op: &'a str) -> Result<Value, NoMemory>
    ensures { IfOk result (λ v. view v ≡ told_data address.now op.now) }
{
    object_value(alloc, &[("address", address), ("op", op)], &[])
}

fn address_value(alloc: Global, address: &Address, op: &str) -> Result<Value, NoMemory>
    ensures { IfOk result (λ v. view v ≡ address_data address.now op.now) }
{
    let address = print_address(alloc, address)?;
    told_value(alloc, address.as_str(), op)
}

/// The line of an address that the node announces from now on.
pub fn announce_line(alloc: Global, address: &Address) -> Result<Text, NoMemory>
    ensures { IfOk result (λ line. line ≡ announce_text address.now) }
{
    let value = address_value(alloc, address, "announce")?;
    written(alloc, &value)
}

/// The line of an address that the node doesn't announce any more.
pub fn withdraw_line(alloc: Global, address: &Address) -> Result<Text, NoMemory>
    ensures { IfOk result (λ line. line ≡ withdraw_text address.now) }
{
    let value = address_value(alloc, address, "withdraw")?;
    written(alloc, &value)
}

/// What is to be done with the bytes, in hexadecimal, and whom they are for.
fn bytes_value<'a>(
    alloc: Global,
    bytes: &'a str,
    name: &'a str,
    text: &'a str,
    op: &'a str,
) -> Result<Value, NoMemory>
    ensures { IfOk result (λ v. view v ≡ bytes_data bytes.now name.now text.now op.now) }
{
    object_value(alloc, &[("bytes", bytes), (name, text), ("op", op)], &[])
}

fn send_value(alloc: Global, interface: &Text, bytes: &[u8]) -> Result<Value, NoMemory>
    ensures { IfOk result (λ v. view v ≡ send_data interface.now bytes.now) }
{
    let frame = hex::encode(alloc, bytes)?;
    bytes_value(
        alloc,
        frame.as_str(),
        "interface",
        interface.as_str(),
        "send",
    )
}

/// The line of a frame that is to be sent by an interface, its bytes in hexadecimal.
pub fn send_line(alloc: Global, interface: &Text, bytes: &[u8]) -> Result<Text, NoMemory>
    ensures { IfOk result (λ line. line ≡ send_text interface.now bytes.now) }
{
    let value = send_value(alloc, interface, bytes)?;
    written(alloc, &value)
}

fn update_value(alloc: Global, peer: &Text, bytes: &[u8]) -> Result<Value, NoMemory>
    ensures { IfOk result (λ v. view v ≡ update_data peer.now bytes.now) }
{
    let message = hex::encode(alloc, bytes)?;
    bytes_value(alloc, message.as_str(), "peer", peer.as_str(), "update")
}

/// The line of a message (RFC 4271, section 4.3) that is to be sent to a BGP peer, its bytes in
/// hexadecimal.
pub fn update_line(alloc: Global, peer: &Text, bytes: &[u8]) -> Result<Text, NoMemory>
    ensures { IfOk result (λ line. line ≡ update_text peer.now bytes.now) }
{
    let value = update_value(alloc, peer, bytes)?;
    written(alloc, &value)
}

fn record_value(alloc: Global, key: &Key, addresses: &[Address]) -> Result<Value, NoMemory>
    ensures { IfOk result (λ v. view v ≡ record_data key.now addresses.now) }
{
    addressed_value(
        alloc,
        addresses,
        &[
            ("name", key.name.as_str()),
            ("namespace", key.namespace.as_str()),
            ("op", "record"),
        ],
        &[],
    )
}

/// The line of the addresses that a service has at the end of a trial.
pub fn record_line(alloc: Global, key: &Key, addresses: &[Address]) -> Result<Text, NoMemory>
    ensures { IfOk result (λ line. line ≡ record_text key.now addresses.now) }
{
    let value = record_value(alloc, key, addresses)?;
    written(alloc, &value)
}

fn trial_value(
    alloc: Global,
    assigned: u64,
    puts: u64,
    services: u64,
    steps: u32,
) -> Result<Value, NoMemory>
    ensures { IfOk result (λ v. view v ≡ trial_data assigned puts services steps) }
{
    object_value(
        alloc,
        &[("op", "trial")],
        &[
            ("assigned", assigned),
            ("puts", puts),
            ("services", services),
            ("steps", u64::from(steps)),
        ],
    )
}

/// The line that ends a trial: how many services have an address, how many puts were wanted, how
/// many services are stored, and how many steps there were.
pub fn trial_line(
    alloc: Global,
    assigned: u64,
    puts: u64,
    services: u64,
    steps: u32,
) -> Result<Text, NoMemory>
    ensures { IfOk result (λ line. line ≡ trial_text assigned puts services steps) }
{
    let value = trial_value(alloc, assigned, puts, services, steps)?;
    written(alloc, &value)
}
