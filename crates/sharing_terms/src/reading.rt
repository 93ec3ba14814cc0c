//! Marks that are read: what a text may spell is written again, and compared with the text.
ghost use Rattle.std.specs.Prelude.{◌≡◌, ◌↔◌, [], IfOk, Some};
ghost use Rattle.sharing_terms.specs.Spelled.{ahead_of, behind, text_of_bytes, text_of_hex};
ghost use Rattle.sharing_terms.specs.Spelled.{protocol_of_letter, number_from, port_of_text};
ghost use Rattle.sharing_terms.specs.Spelled.{pieces};
ghost use Rattle.sharing_terms.specs.Spelled.{ports_from, ports_of_text, pair_of_text, labels_from, local_from, backend_of_text, spelled, recorded_terms};
ghost use Rattle.sharing_terms.specs.declared.terms.Terms.{Terms};
ghost use Rattle.sharing_terms.specs.Marked.{IsMarkOf};

use crate::mark::mark_text;
use crate::port_set::PortSet;
use crate::terms::{Backend, Terms};
use hex::FromHexError;
use kube_labels::{Labels, Text};
use kube_model::{Port, PortList, Protocol};
use mlb_base::{ByteList, NoMemory, Sequence};
use std::alloc::Global;

/// The text ahead of the first such byte, or all of it.
fn ahead_of(byte: u8, text: &[u8]) -> &[u8]
    ensures { result.now ≡ ahead_of byte text.now }
{
    for at in 0..text.len() {
        if text[at] == byte {
            return &text[..at];
        }
    }
    text
}

/// The text after the first such byte, or nothing.
fn behind(byte: u8, text: &[u8]) -> &[u8]
    ensures { result.now ≡ behind byte text.now }
{
    for at in 0..text.len() {
        if text[at] == byte {
            return &text[at + 1..];
        }
    }
    &text[text.len()..]
}

/// The text of these bytes, where they are UTF-8.
fn text_of(alloc: Global, bytes: &[u8]) -> Result<Option<Text>, NoMemory>
    ensures { IfOk result (λ text. text ≡ text_of_bytes bytes.now) }
{
    match str::from_utf8(bytes) {
        Ok(text) => Ok(Some(Text::new(alloc, text)?)),
        Err(_) => Ok(None),
    }
}

fn text_of_hex(alloc: Global, digits: &[u8]) -> Result<Option<Text>, NoMemory>
    ensures { IfOk result (λ text. text ≡ text_of_hex digits.now) }
{
    match hex::decode(alloc, digits) {
        Ok(bytes) => text_of(alloc, bytes.as_slice()),
        Err(FromHexError::OutOfMemory) => Err(NoMemory),
        Err(_) => Ok(None),
    }
}

fn protocol_of_letter(letter: u8) -> Option<Protocol>
    ensures { result ≡ protocol_of_letter letter }
{
    match letter {
        b'T' => Some(Protocol::Tcp),
        b'U' => Some(Protocol::Udp),
        b'S' => Some(Protocol::Sctp),
        _ => None,
    }
}

/// The number of these digits, where it is one of 16 bits.
fn number_of(digits: &[u8]) -> Option<u16>
    ensures { result ≡ number_from 0 digits.now }
{
    let mut number: u32 = 0;
    for digit in digits {
        if *digit < b'0' || b'9' < *digit {
            return None;
        }
        number = number * 10 + (*digit - b'0') as u32;
        if number >= 65536 {
            return None;
        }
    }
    Some(number as u16)
}

fn port_of_text(text: &[u8]) -> Option<Port>
    ensures { result ≡ port_of_text text.now }
{
    let [letter, digits @ ..] = text else {
        return None;
    };
    let protocol = protocol_of_letter(*letter)?;
    let port = number_of(digits)?;
    Some(Port { protocol, port })
}

/// The text cut at each such byte.
fn pieces(alloc: Global, byte: u8, text: &[u8]) -> Result<Vec<ByteList>, NoMemory>
    ensures { IfOk result (λ cut. cut.items ≡ pieces byte text.now) }
{
    let mut done = Vec::new(alloc);
    let mut piece = ByteList::new(alloc);
    for c in text {
        if *c != byte {
            piece.push(*c)?;
            continue;
        }
        done.push(piece)?;
        piece = ByteList::new(alloc);
    }
    done.push(piece)?;
    Ok(done)
}

fn ports_from(alloc: Global, pieces: &[ByteList]) -> Result<Option<PortList>, NoMemory>
    ensures { IfOk result (λ ports. ports ≡ ports_from pieces.now) }
{
    let mut ports = PortList::new(alloc);
    for piece in pieces {
        let Some(port) = port_of_text(piece.as_slice()) else {
            return Ok(None);
        };
        ports.push(port)?;
    }
    Ok(Some(ports))
}

fn ports_of_text(alloc: Global, text: &[u8]) -> Result<Option<PortList>, NoMemory>
    ensures { IfOk result (λ ports. ports ≡ ports_of_text text.now) }
{
    if text.is_empty() {
        return Ok(Some(PortList::new(alloc)));
    }
    let cut = pieces(alloc, b',', text)?;
    ports_from(alloc, cut.as_slice())
}

fn pair_of_text(alloc: Global, text: &[u8]) -> Result<Option<(Text, Text)>, NoMemory>
    ensures { IfOk result (λ pair. pair ≡ pair_of_text text.now) }
{
    let Some(name) = text_of_hex(alloc, ahead_of(b'=', text))? else {
        return Ok(None);
    };
    let Some(value) = text_of_hex(alloc, behind(b'=', text))? else {
        return Ok(None);
    };
    Ok(Some((name, value)))
}

fn labels_from(alloc: Global, pieces: &[ByteList]) -> Result<Option<Labels>, NoMemory>
    ensures { IfOk result (λ labels. labels ≡ labels_from [] pieces.now) }
{
    let mut labels = Labels::new(alloc);
    for piece in pieces {
        let Some((name, value)) = pair_of_text(alloc, piece.as_slice())? else {
            return Ok(None);
        };
        labels.set(name, value)?;
    }
    Ok(Some(labels))
}

fn local_from(alloc: Global, pieces: &[ByteList]) -> Result<Option<Backend>, NoMemory>
    ensures { IfOk result (λ backend. backend ≡ local_from pieces.now) }
{
    let [first, others @ ..] = pieces else {
        return Ok(None);
    };
    let Some(namespace) = text_of_hex(alloc, first.as_slice())? else {
        return Ok(None);
    };
    let Some(selector) = labels_from(alloc, others)? else {
        return Ok(None);
    };
    Ok(Some(Backend::Local {
        namespace,
        selector,
    }))
}

fn backend_of_text(alloc: Global, text: &[u8]) -> Result<Option<Backend>, NoMemory>
    ensures { IfOk result (λ backend. backend ≡ backend_of_text text.now) }
{
    match text {
        [b'C', ..] => Ok(Some(Backend::Cluster)),
        [b'L', others @ ..] => {
            let cut = pieces(alloc, b',', others)?;
            local_from(alloc, cut.as_slice())
        }
        _ => Ok(None),
    }
}

/// The terms that the text may spell, if it spells some.
fn spelled(alloc: Global, text: &[u8]) -> Result<Option<Terms>, NoMemory>
    ensures { IfOk result (λ terms. terms ≡ spelled text.now) }
{
    let rest = behind(b';', text);
    let last = behind(b';', rest);
    let Some(key) = text_of_hex(alloc, ahead_of(b';', rest))? else {
        return Ok(None);
    };
    let Some(ports) = ports_of_text(alloc, ahead_of(b';', last))? else {
        return Ok(None);
    };
    let Some(backend) = backend_of_text(alloc, behind(b';', last))? else {
        return Ok(None);
    };
    Ok(Some(Terms {
        key,
        ports: PortSet::of(alloc, ports.as_slice())?,
        backend,
    }))
}

fn recorded(alloc: Global, text: &str) -> Result<Option<Terms>, NoMemory>
    ensures { IfOk result (λ terms. terms ≡ recorded_terms text.now) }
{
    let Some(terms) = spelled(alloc, text.as_bytes())? else {
        return Ok(None);
    };
    let mark = mark_text(alloc, &terms)?;
    if mark.as_str() == text {
        Ok(Some(terms))
    } else {
        Ok(None)
    }
}

/// The terms of which the text is the mark; `None` exactly where it is that of none.
pub fn read_mark(alloc: Global, text: &str) -> Result<Option<Terms>, NoMemory>
    ensures value { IfOk result (λ terms. terms ≡ recorded_terms text.now) }
    ensures exact { IfOk result (λ terms. (t : Terms) → (terms ≡ Some t) ↔ IsMarkOf t text.now) }
{
    recorded(alloc, text)
}
