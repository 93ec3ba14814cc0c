//! The communities of advertisements, and what is wrong with them.
ghost use Rattle.std.specs.Prelude.{◌≡◌, ◌&&◌, [], map, filter, not, IfOk, OnOk};
ghost use Rattle.std.specs.BTreeMap.{is_at};
ghost use Rattle.std.specs.BTreeSet.{insert_key};
ghost use Rattle.std.specs.Option.{option_copied};
ghost use Rattle.std.specs.Bool.{OnFalse};
ghost use Rattle.std.specs.Map.{lookup};
ghost use Rattle.std.specs.Str.{bytes_eq};
ghost use Rattle.std.specs.List.{list_any, filter_map};
ghost use Rattle.pool_config.specs.Objects.{named};
ghost use Rattle.kube_labels.specs.Names.{name_cmp};
ghost use Rattle.pool_config.specs.KeySets.{keys_with};
ghost use Rattle.pool_config.specs.Faults.{is_large_name, counts_as_large, with_large};
ghost use Rattle.pool_config.specs.Large.{begins_large};
ghost use Rattle.pool_config.specs.Lists.{named_value, number_in, numbers_in, large_in, larges_in};
ghost use Rattle.pool_config.specs.Search.{first_name, first_past, is_unknown, is_no_community};
ghost use Rattle.pool_config.specs.Search.{is_bad_text, has_bad_value, repeats, names_with};
ghost use Rattle.pool_config.specs.Search.{first_repeat};

use crate::large::{begins_large, read_large};
use crate::numbers::{CommunityNumbers, has_colon, numbers_from, read_number};
use crate::search::{any_passes, first_name};
use kube_labels::Text;
use kube_model::{BgpAdv, CommunityList};
use large_numbers::{LargeCommunity, LargeNumbers, larges_from};
use mlb_base::{NoMemory, TryCopy};
use std::alloc::Global;
use std::collections::BTreeSet;
use versioned_map::VersionedMap;

/// The most distinct community texts of all advertisements.
const MOST_TEXTS: usize = 512;

/// The most of them that are of large communities.
const MOST_LARGE: usize = 128;

/// The value of a community's name, in the first list that has it.
fn named_value<'a>(
    communities: &'a VersionedMap<Text, CommunityList>,
    name: &Text,
) -> Option<&'a Text>
    ensures { option_copied result ≡ named_value (named communities.now) name.now }
{
    for (_, held) in communities.iter() {
        if let Some(value) = value_in(held.object.values.as_slice(), name) {
            return Some(value);
        }
    }
    None
}

fn value_in<'a>(values: &'a [(Text, Text)], name: &Text) -> Option<&'a Text>
    ensures { option_copied result ≡ lookup (λ n. bytes_eq n name.now) values.now }
{
    for (known, value) in values {
        if known == name {
            return Some(value);
        }
    }
    None
}

/// The number that an advertisement's community stands for.
fn number_in(communities: &VersionedMap<Text, CommunityList>, text: &Text) -> Option<u32>
    ensures { result ≡ number_in (named communities.now) text.now }
{
    if has_colon(text.as_str()) {
        return read_number(text.as_str());
    }
    match named_value(communities, text) {
        Some(value) => read_number(value.as_str()),
        None => None,
    }
}

/// The large community that an advertisement's community stands for.
fn large_in(communities: &VersionedMap<Text, CommunityList>, text: &Text) -> Option<LargeCommunity>
    ensures { result ≡ large_in (named communities.now) text.now }
{
    if has_colon(text.as_str()) {
        return read_large(text.as_str());
    }
    match named_value(communities, text) {
        Some(value) => read_large(value.as_str()),
        None => None,
    }
}

/// The large communities of an advertisement, ascending, each once.
pub(crate) fn read_larges(
    alloc: Global,
    communities: &VersionedMap<Text, CommunityList>,
    texts: &[Text],
) -> Result<LargeNumbers, NoMemory>
    ensures { IfOk result (λ numbers. numbers ≡ larges_in (named communities.now) texts.now) }
{
    let mut numbers = BTreeSet::new(alloc);
    for text in texts {
        if let Some(number) = large_in(communities, text) {
            let _is_new = numbers.insert(number)?;
        }
    }
    larges_from(alloc, &numbers)
}

/// The numbers of an advertisement's communities, ascending, each once.
pub(crate) fn read_communities(
    alloc: Global,
    communities: &VersionedMap<Text, CommunityList>,
    texts: &[Text],
) -> Result<CommunityNumbers, NoMemory>
    ensures { IfOk result (λ numbers. numbers ≡ numbers_in (named communities.now) texts.now) }
{
    let mut numbers = BTreeSet::new(alloc);
    for text in texts {
        if let Some(number) = number_in(communities, text) {
            let _is_new = numbers.insert(number)?;
        }
    }
    numbers_from(alloc, &numbers)
}

/// The first advertisement with which there are more texts than there may be.
pub(crate) fn bgp_of_many_texts(
    alloc: Global,
    bgps: &VersionedMap<Text, BgpAdv>,
) -> Result<Option<&Text>, NoMemory>
    ensures { IfOk result (λ found. option_copied found ≡ first_past 512 [] (named bgps.now)) }
{
    let mut texts = BTreeSet::new(alloc);
    let found = past_texts(&mut texts, bgps);
    drop(texts);
    found
}

/// Adds the advertisements' texts, up to the first one with which there are more than there may be.
fn past_texts<'a>(
    texts: &mut BTreeSet<Text>,
    bgps: &'a VersionedMap<Text, BgpAdv>,
) -> Result<Option<&'a Text>, NoMemory>
    ensures { IfOk result (λ found. option_copied found
        ≡ first_past 512 texts.old.keys (named bgps.now)) }
{
    for (name, held) in bgps.iter() {
        add_texts(texts, held.object.communities.as_slice())?;
        if texts.len() > MOST_TEXTS {
            return Ok(Some(name));
        }
    }
    Ok(None)
}

fn add_texts(held: &mut BTreeSet<Text>, texts: &[Text]) -> Result<(), NoMemory>
    ensures { OnOk result (held.new.keys ≡ keys_with name_cmp held.old.keys texts.now) }
{
    for text in texts {
        let _is_new = put_text(held, text)?;
    }
    Ok(())
}

/// Puts in a copy of the text. Whether it is new.
fn put_text(held: &mut BTreeSet<Text>, text: &Text) -> Result<bool, NoMemory>
    ensures is_new { IfOk result (λ is_new. is_new
        ≡ not (list_any (is_at (name_cmp text.now)) held.old.keys)) }
    ensures put { OnOk result (held.new.keys ≡ insert_key name_cmp held.old.keys text.now) }
{
    let is_new = held.insert(text.copy()?)?;
    Ok(is_new)
}

/// The first advertisement with which there are more texts of large communities than there may be.
pub(crate) fn bgp_of_many_large<'a>(
    alloc: Global,
    communities: &VersionedMap<Text, CommunityList>,
    bgps: &'a VersionedMap<Text, BgpAdv>,
) -> Result<Option<&'a Text>, NoMemory>
    ensures { IfOk result (λ found. option_copied found
        ≡ first_past 128 [] (map (with_large (named communities.now)) (named bgps.now))) }
{
    let mut texts = BTreeSet::new(alloc);
    let found = past_large(communities, &mut texts, bgps);
    drop(texts);
    found
}

/// Adds the advertisements' texts of large communities, up to the first one with which there are
/// more than there may be.
fn past_large<'a>(
    communities: &VersionedMap<Text, CommunityList>,
    texts: &mut BTreeSet<Text>,
    bgps: &'a VersionedMap<Text, BgpAdv>,
) -> Result<Option<&'a Text>, NoMemory>
    ensures { IfOk result (λ found. option_copied found
        ≡ first_past 128 texts.old.keys
        (map (with_large (named communities.now)) (named bgps.now))) }
{
    for (name, held) in bgps.iter() {
        add_large_texts(communities, texts, held.object.communities.as_slice())?;
        if texts.len() > MOST_LARGE {
            return Ok(Some(name));
        }
    }
    Ok(None)
}

fn add_large_texts(
    communities: &VersionedMap<Text, CommunityList>,
    held: &mut BTreeSet<Text>,
    texts: &[Text],
) -> Result<(), NoMemory>
    ensures { OnOk result (held.new.keys
        ≡ keys_with name_cmp held.old.keys
        (filter (counts_as_large (named communities.now)) texts.now)) }
{
    for text in texts {
        if counts_as_large(communities, text) {
            let _is_new = put_text(held, text)?;
        }
    }
    Ok(())
}

/// Whether the text begins as a large community's, or is a name with a value that does.
fn counts_as_large(communities: &VersionedMap<Text, CommunityList>, text: &Text) -> bool
    ensures { result ≡ counts_as_large (named communities.now) text.now }
{
    begins_large(text.as_str()) || is_large_name(communities, text)
}

fn is_large_name(communities: &VersionedMap<Text, CommunityList>, name: &Text) -> bool
    ensures { result ≡ is_large_name (named communities.now) name.now }
{
    first_name(communities, |list: &CommunityList| {
        has_large(list.values.as_slice(), name)
    })
    .is_some()
}

fn has_large(values: &[(Text, Text)], name: &Text) -> bool
    ensures { result ≡ list_any (λ v. bytes_eq v.0 name.now && begins_large v.1) values.now }
{
    for (known, value) in values {
        if known == name && begins_large(value.as_str()) {
            return true;
        }
    }
    false
}

/// The first advertisement with a text that has no colon and is no name.
pub(crate) fn bgp_of_unknown<'a>(
    communities: &VersionedMap<Text, CommunityList>,
    bgps: &'a VersionedMap<Text, BgpAdv>,
) -> Option<&'a Text>
    ensures { option_copied result
        ≡ first_name (λ adv. list_any (is_unknown (named communities.now)) adv.communities)
        (named bgps.now) }
{
    first_name(bgps, |advertisement: &BgpAdv| {
        has_unknown(communities, advertisement.communities.as_slice())
    })
}

fn has_unknown(communities: &VersionedMap<Text, CommunityList>, texts: &[Text]) -> bool
    ensures { result ≡ list_any (is_unknown (named communities.now)) texts.now }
{
    for text in texts {
        if !has_colon(text.as_str()) && named_value(communities, text).is_none() {
            return true;
        }
    }
    false
}

/// Whether the text is neither a number nor a large community.
fn is_no_community(text: &Text) -> bool
    ensures { result ≡ is_no_community text.now }
{
    read_number(text.as_str()).is_none() && read_large(text.as_str()).is_none()
}

/// The first list of communities with a value that is neither `A:B` nor `large:A:B:C`.
pub(crate) fn list_of_bad_value(communities: &VersionedMap<Text, CommunityList>) -> Option<&Text>
    ensures { option_copied result ≡ first_name has_bad_value (named communities.now) }
{
    first_name(communities, has_bad_value)
}

fn has_bad_value(list: &CommunityList) -> bool
    ensures { result ≡ has_bad_value list.now }
{
    any_passes(list.values.as_slice(), has_no_community)
}

fn has_no_community(named: &(Text, Text)) -> bool
    ensures { result ≡ is_no_community named.now.1 }
{
    is_no_community(&named.1)
}

/// The first advertisement with a text that has a colon, and is neither `A:B` nor `large:A:B:C`.
pub(crate) fn bgp_of_bad_text(bgps: &VersionedMap<Text, BgpAdv>) -> Option<&Text>
    ensures { option_copied result
        ≡ first_name (λ adv. list_any is_bad_text adv.communities) (named bgps.now) }
{
    first_name(bgps, |advertisement: &BgpAdv| {
        has_bad_text(advertisement.communities.as_slice())
    })
}

fn has_bad_text(texts: &[Text]) -> bool
    ensures { result ≡ list_any is_bad_text texts.now }
{
    any_passes(texts, is_bad_text)
}

fn is_bad_text(text: &Text) -> bool
    ensures { result ≡ is_bad_text text.now }
{
    has_colon(text.as_str()) && is_no_community(text)
}

/// The first list of communities with a name that stood before.
pub(crate) fn list_of_repeat(
    alloc: Global,
    communities: &VersionedMap<Text, CommunityList>,
) -> Result<Option<&Text>, NoMemory>
    ensures { IfOk result (λ found. option_copied found ≡ first_repeat [] (named communities.now)) }
{
    let mut names = BTreeSet::new(alloc);
    let found = repeat_among(&mut names, communities);
    drop(names);
    found
}

/// Adds the names of the lists, up to the first list with one that is there already.
fn repeat_among<'a>(
    names: &mut BTreeSet<Text>,
    communities: &'a VersionedMap<Text, CommunityList>,
) -> Result<Option<&'a Text>, NoMemory>
    ensures { IfOk result (λ found. option_copied found
        ≡ first_repeat names.old.keys (named communities.now)) }
{
    for (name, held) in communities.iter() {
        if add_names(names, held.object.values.as_slice())? {
            return Ok(Some(name));
        }
    }
    Ok(None)
}

/// Adds the names, up to one that is there already. Whether there is one.
fn add_names(held: &mut BTreeSet<Text>, values: &[(Text, Text)]) -> Result<bool, NoMemory>
    ensures repeated { IfOk result (λ repeated. repeated ≡ repeats held.old.keys values.now) }
    ensures added { IfOk result (λ repeated. OnFalse repeated
        (held.new.keys ≡ names_with held.old.keys values.now)) }
{
    for (name, _) in values {
        if !put_text(held, name)? {
            return Ok(true);
        }
    }
    Ok(false)
}
