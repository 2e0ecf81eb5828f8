//! Reads the messages that hold lists, which are owned: EXT_INFO, KEXINIT and USERAUTH_FAILURE.
//!
//! Each is judged to its end before memory is asked for: running out of memory is told of a message alone.

ghost use Rattle.std.specs.Prelude.{◌≡◌, IfErr, IfOk, [], vec_capacity};
ghost use Rattle.sshwire.specs.TypeReadings.{Gives};
ghost use Rattle.sshmsg.specs.MessageData as content;
ghost use Rattle.sshmsg.specs.Form.{Reserved, bytes_at, field_at, form_at};
ghost use Rattle.sshmsg.specs.MessageData.{ext_info, extensions, kexinit, userauth_failure};
ghost use Rattle.sshmsg.specs.Messages.{whole_form};
ghost use Rattle.sshmsg.specs.View.{Goes, IsOutOfMemory, LendsPairs, MessageAnswer, Passes, kexinit_data, lent_kexinit_data, pair_of, pairs_of};
ghost use Rattle.sshmsg.specs.Lists.{end_at, four_at, offer_with, pair_at, ten_at, two_at};

use crate::fault::MsgFault;
use crate::message::{Extension, KexInit, Message};
use crate::numbers::{SSH_MSG_EXT_INFO, SSH_MSG_KEXINIT, SSH_MSG_USERAUTH_FAILURE};
use sshwire::owned::{beside, once};
use sshwire::{BorrowedNameList, Memory, NameList, Reader, WireFault};
use std::alloc::Global;

/// What a KEXINIT says, all of it lent.
#[derive(Drop)]
struct LentKexInit<'a> {
    cookie: &'a [u8; 16],
    kex_algorithms: BorrowedNameList<'a>,
    server_host_key_algorithms: BorrowedNameList<'a>,
    encryption_client_to_server: BorrowedNameList<'a>,
    encryption_server_to_client: BorrowedNameList<'a>,
    mac_client_to_server: BorrowedNameList<'a>,
    mac_server_to_client: BorrowedNameList<'a>,
    compression_client_to_server: BorrowedNameList<'a>,
    compression_server_to_client: BorrowedNameList<'a>,
    languages_client_to_server: BorrowedNameList<'a>,
    languages_server_to_client: BorrowedNameList<'a>,
    first_kex_packet_follows: bool,
}

/// Reads the fields of a KEXINIT.
pub(crate) fn read_kexinit<'a>(alloc: Global, fields: &'a [u8]) -> Result<Message<'a>, MsgFault>
    ensures exact { MessageAnswer result (whole_form SSH_MSG_KEXINIT (form_at kexinit fields.now)) }
    ensures memory { IsOutOfMemory result (whole_form SSH_MSG_KEXINIT (form_at kexinit fields.now)) }
{
    let mut reader = Reader::new(fields);
    let Ok(lent) = lend_kexinit(&mut reader) else {
        return Err(MsgFault::Malformed(SSH_MSG_KEXINIT));
    };
    if !reader.rest().is_empty() {
        return Err(MsgFault::Malformed(SSH_MSG_KEXINIT));
    }
    match own_kexinit(alloc, &lent) {
        Ok(kexinit) => Ok(Message::KexInit(kexinit)),
        Err(_) => Err(MsgFault::Memory),
    }
}

/// Reads what a KEXINIT says, with nothing owned.
fn lend_kexinit<'a>(reader: &mut Reader<'a>) -> Result<LentKexInit<'a>, WireFault>
    ensures { Goes (λ k. content.KexInit (lent_kexinit_data k)) result reader.new (form_at kexinit reader.old) }
{
    let cookie = read_cookie(reader)?;
    let lists = lend_ten(reader)?;
    let follows = read_end(reader);
    let (lists, follows) = beside(lists, follows)?;
    Ok(lent_kexinit(cookie, lists, follows))
}

/// Two lists that are lent.
type LentTwo<'a> = (BorrowedNameList<'a>, BorrowedNameList<'a>);

/// Four lists that are lent, in pairs.
type LentFour<'a> = (LentTwo<'a>, LentTwo<'a>);

/// The ten lists of a KEXINIT that are lent: two, and four, and four.
type LentTen<'a> = ((LentTwo<'a>, LentFour<'a>), LentFour<'a>);

/// The KEXINIT that says this, all of it lent.
fn lent_kexinit<'a>(cookie: &'a [u8; 16], lists: LentTen<'a>, follows: bool) -> LentKexInit<'a>
    ensures { lent_kexinit_data result ≡ offer_with cookie.now lists.entry follows }
{
    let ((algorithms, (encryption, mac)), (compression, languages)) = lists;
    LentKexInit {
        cookie,
        kex_algorithms: algorithms.0,
        server_host_key_algorithms: algorithms.1,
        encryption_client_to_server: encryption.0,
        encryption_server_to_client: encryption.1,
        mac_client_to_server: mac.0,
        mac_server_to_client: mac.1,
        compression_client_to_server: compression.0,
        compression_server_to_client: compression.1,
        languages_client_to_server: languages.0,
        languages_server_to_client: languages.1,
        first_kex_packet_follows: follows,
    }
}

/// Reads ten lists.
#[tactic(auto, unfolding(crate::specs::Lists::ten_at))]
fn lend_ten<'a>(reader: &mut Reader<'a>) -> Result<LentTen<'a>, WireFault>
    ensures { Goes (λ lists. lists) result reader.new (ten_at reader.old) }
{
    let two = lend_two(reader)?;
    let four = lend_four(reader);
    let six = beside(two, four)?;
    let four = lend_four(reader);
    beside(six, four)
}

/// Reads four lists.
#[tactic(auto, unfolding(crate::specs::Lists::four_at))]
fn lend_four<'a>(reader: &mut Reader<'a>) -> Result<LentFour<'a>, WireFault>
    ensures { Goes (λ lists. lists) result reader.new (four_at reader.old) }
{
    let first = lend_two(reader)?;
    let other = lend_two(reader);
    beside(first, other)
}

/// Reads two lists.
#[tactic(auto, unfolding(crate::specs::Lists::two_at))]
fn lend_two<'a>(reader: &mut Reader<'a>) -> Result<LentTwo<'a>, WireFault>
    ensures { Goes (λ lists. lists) result reader.new (two_at reader.old) }
{
    let first = reader.borrowed_name_list()?;
    let other = reader.borrowed_name_list();
    beside(first, other)
}

/// Reads what stands after the lists of a KEXINIT: whether a packet follows, and the reserved word.
fn read_end(reader: &mut Reader<'_>) -> Result<bool, WireFault>
    ensures { Goes (λ follows. follows) result reader.new (end_at reader.old) }
{
    let follows = reader.boolean()?;
    read_reserved(reader)?;
    Ok(follows)
}

/// The KEXINIT with lists of its own, in a box.
fn own_kexinit<'a>(alloc: Global, lent: &LentKexInit<'a>) -> Result<Box<KexInit<'a>>, Memory>
    ensures { IfOk result (λ k. kexinit_data k.value ≡ lent_kexinit_data lent.now) }
{
    let lists = own_lists(alloc, lent)?;
    Ok(Box::new(alloc, owned_kexinit(lent, lists))?)
}

/// Two lists of their own.
type Two = (NameList, NameList);

/// Four lists of their own, in pairs.
type Four = (Two, Two);

/// The ten lists of a KEXINIT of their own: two, and four, and four.
type Ten = ((Two, Four), Four);

/// The KEXINIT with these lists.
fn owned_kexinit<'a>(lent: &LentKexInit<'a>, lists: Ten) -> KexInit<'a>
    ensures { kexinit_data result ≡ offer_with lent.now.cookie.now lists lent.now.first_kex_packet_follows }
{
    let ((algorithms, (encryption, mac)), (compression, languages)) = lists;
    KexInit {
        cookie: lent.cookie,
        kex_algorithms: algorithms.0,
        server_host_key_algorithms: algorithms.1,
        encryption_client_to_server: encryption.0,
        encryption_server_to_client: encryption.1,
        mac_client_to_server: mac.0,
        mac_server_to_client: mac.1,
        compression_client_to_server: compression.0,
        compression_server_to_client: compression.1,
        languages_client_to_server: languages.0,
        languages_server_to_client: languages.1,
        first_kex_packet_follows: lent.first_kex_packet_follows,
    }
}

/// The lists of a KEXINIT, owned.
fn own_lists(alloc: Global, lent: &LentKexInit<'_>) -> Result<Ten, Memory>
    ensures { IfOk result (λ lists. offer_with lent.now.cookie.now lists lent.now.first_kex_packet_follows ≡ lent_kexinit_data lent.now) }
{
    let two = own_two(
        alloc,
        &lent.kex_algorithms,
        &lent.server_host_key_algorithms,
    )?;
    let four = own_four(
        alloc,
        &lent.encryption_client_to_server,
        &lent.encryption_server_to_client,
        &lent.mac_client_to_server,
        &lent.mac_server_to_client,
    );
    let six = beside(two, four)?;
    let four = own_four(
        alloc,
        &lent.compression_client_to_server,
        &lent.compression_server_to_client,
        &lent.languages_client_to_server,
        &lent.languages_server_to_client,
    );
    beside(six, four)
}

/// Four lists of their own, in pairs.
fn own_four(
    alloc: Global,
    first: &BorrowedNameList<'_>,
    second: &BorrowedNameList<'_>,
    third: &BorrowedNameList<'_>,
    fourth: &BorrowedNameList<'_>,
) -> Result<Four, Memory>
    ensures { IfOk result (λ four. four ≡ ((first.now, second.now), (third.now, fourth.now))) }
{
    let one = own_two(alloc, first, second)?;
    let other = own_two(alloc, third, fourth);
    beside(one, other)
}

/// Two lists of their own.
fn own_two(
    alloc: Global,
    first: &BorrowedNameList<'_>,
    second: &BorrowedNameList<'_>,
) -> Result<Two, Memory>
    ensures { IfOk result (λ two. two ≡ (first.now, second.now)) }
{
    let first = first.to_owned(alloc)?;
    let second = second.to_owned(alloc);
    beside(first, second)
}

/// The 16 bytes of the cookie.
fn read_cookie<'a>(reader: &mut Reader<'a>) -> Result<&'a [u8; 16], WireFault>
    ensures { Goes (λ cookie. cookie.now) result reader.new (bytes_at 16 reader.old) }
{
    let bytes: &'a [u8] = reader.rest();
    match bytes.split_first_chunk::<16>() {
        Some((cookie, rest)) => {
            *reader = Reader::new(rest);
            Ok(cookie)
        }
        None => Err(WireFault::Short),
    }
}

/// The reserved word, which may hold anything.
fn read_reserved(reader: &mut Reader<'_>) -> Result<(), WireFault>
    ensures { Goes (λ _. tt) result reader.new (field_at Reserved reader.old) }
{
    let bytes = reader.rest();
    if bytes.len() < 4 {
        return Err(WireFault::Short);
    }
    *reader = Reader::new(&bytes[4..]);
    Ok(())
}

/// Reads the fields of a USERAUTH_FAILURE.
pub(crate) fn read_userauth_failure<'a>(
    alloc: Global,
    fields: &'a [u8],
) -> Result<Message<'a>, MsgFault>
    ensures exact { MessageAnswer result (whole_form SSH_MSG_USERAUTH_FAILURE (form_at userauth_failure fields.now)) }
    ensures memory { IsOutOfMemory result (whole_form SSH_MSG_USERAUTH_FAILURE (form_at userauth_failure fields.now)) }
{
    let mut reader = Reader::new(fields);
    let Ok((methods, partial_success)) = lend_userauth_failure(&mut reader) else {
        return Err(MsgFault::Malformed(SSH_MSG_USERAUTH_FAILURE));
    };
    if !reader.rest().is_empty() {
        return Err(MsgFault::Malformed(SSH_MSG_USERAUTH_FAILURE));
    }
    match methods.to_owned(alloc) {
        Ok(methods) => Ok(Message::UserauthFailure {
            methods,
            partial_success,
        }),
        Err(_) => Err(MsgFault::Memory),
    }
}

fn lend_userauth_failure<'a>(
    reader: &mut Reader<'a>,
) -> Result<(BorrowedNameList<'a>, bool), WireFault>
    ensures { Goes (λ x. content.UserauthFailure x.0 x.1) result reader.new (form_at userauth_failure reader.old) }
{
    let methods = reader.borrowed_name_list()?;
    let partial_success = reader.boolean()?;
    Ok((methods, partial_success))
}

/// Reads the fields of an EXT_INFO.
pub(crate) fn read_ext_info<'a>(alloc: Global, fields: &'a [u8]) -> Result<Message<'a>, MsgFault>
    ensures exact { MessageAnswer result (whole_form SSH_MSG_EXT_INFO (form_at ext_info fields.now)) }
    ensures memory { IsOutOfMemory result (whole_form SSH_MSG_EXT_INFO (form_at ext_info fields.now)) }
{
    let mut reader = Reader::new(fields);
    let Ok((count, mut pairs)) = lend_ext_info(&mut reader) else {
        return Err(MsgFault::Malformed(SSH_MSG_EXT_INFO));
    };
    if !reader.rest().is_empty() {
        return Err(MsgFault::Malformed(SSH_MSG_EXT_INFO));
    }
    match own_extensions(alloc, count, &mut pairs) {
        Ok(extensions) => Ok(Message::ExtInfo { extensions }),
        Err(WireFault::Memory) => Err(MsgFault::Memory),
        // It doesn't come to this: the pairs were judged.
        Err(_) => Err(MsgFault::Malformed(SSH_MSG_EXT_INFO)),
    }
}

/// How many pairs there are, and a reader in front of the first.
#[tactic(auto, unfolding(crate::specs::MessageData::ext_info))]
fn lend_ext_info<'a>(reader: &mut Reader<'a>) -> Result<(u32, Reader<'a>), WireFault>
    ensures { LendsPairs result reader.old reader.new }
{
    let count = reader.u32()?;
    let pairs = Reader::new(reader.rest());
    pass_extensions(count, reader)?;
    Ok((count, pairs))
}

/// Judges so many pairs.
fn pass_extensions(count: u32, reader: &mut Reader<'_>) -> Result<(), WireFault>
    ensures { Passes result reader.new (form_at (extensions count []) reader.old) }
{
    for _ in 0..count {
        read_extension(reader)?;
    }
    Ok(())
}

/// So many pairs, which stand there: room for them is asked for once.
fn own_extensions<'a>(
    alloc: Global,
    count: u32,
    reader: &mut Reader<'a>,
) -> Result<Vec<Extension<'a>>, WireFault>
    ensures { Gives (λ xs. (content.ExtInfo (pairs_of xs.items), reader.new)) result (form_at (extensions count []) reader.old) }
{
    let mut found = with_room(alloc, count)?;
    let kept = keep_extensions(count, reader, &mut found);
    once(found, kept)
}

/// Reads so many pairs after those that were found.
fn keep_extensions<'a>(
    count: u32,
    reader: &mut Reader<'a>,
    found: &mut Vec<Extension<'a>>,
) -> Result<(), WireFault>
    ensures { Gives (λ _. (content.ExtInfo (pairs_of found.new.items), reader.new)) result (form_at (extensions count (pairs_of found.old.items)) reader.old) }
{
    for _ in 0..count {
        let extension = read_extension(reader)?;
        match found.push(extension) {
            Ok(()) => {}
            Err(_) => return Err(WireFault::Memory),
        }
    }
    Ok(())
}

/// Reads a pair of a name and a value.
#[tactic(auto, unfolding(crate::specs::Lists::pair_at))]
fn read_extension<'a>(reader: &mut Reader<'a>) -> Result<Extension<'a>, WireFault>
    ensures { Goes pair_of result reader.new (pair_at reader.old) }
{
    let name = reader.string()?;
    let value = reader.string()?;
    Ok(Extension { name, value })
}

/// No pairs, with room for so many.
fn with_room<'a>(alloc: Global, count: u32) -> Result<Vec<Extension<'a>>, WireFault>
    ensures empty { IfOk result (λ xs. xs.items ≡ []) }
    ensures asked { IfOk result (λ xs. vec_capacity xs ≡ count) }
    ensures memory { IfErr result (λ e. e ≡ WireFault.Memory) }
{
    match Vec::with_capacity(alloc, count as usize) {
        Ok(extensions) => Ok(extensions),
        Err(_) => Err(WireFault::Memory),
    }
}
