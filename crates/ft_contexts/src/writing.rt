ghost use Rattle.std.specs.Prelude.{◌≡◌, ◌∷◌, [], ◌++◌, ◌+◌, ◌<◌, ◌^◌, length, IfOk, IfSome, OnOk, Ok, option_map};
ghost use Rattle.std.specs.List.{All};
ghost use Rattle.cdr_codec.specs.Calls.{appended};
ghost use Rattle.cdr_codec.specs.Encapsulations.{encapsulated};
ghost use Rattle.ft_base.specs.Text.{IsName};
ghost use Rattle.ft_contexts.specs.Contents.{group_version, request};
ghost use Rattle.ft_contexts.specs.Finding.{IsShort, contexts_of};
ghost use Rattle.ft_contexts.specs.Writing.{context_of, written_contexts, told, IsWritable};

use crate::lists::{Context, Contexts, FT_GROUP_VERSION, FT_REQUEST};
use cdr_codec::{CdrWriter, Order, begin_encapsulation};
use ft_base::{Bytes, Key, NoMemory, Version};
use std::alloc::Global;

fn version_content(alloc: Global, version: Version) -> Result<Bytes, NoMemory>
    ensures content { IfOk result (λ content. content ≡ encapsulated Order.Big group_version version) }
    ensures valid { group_version.Valid version }
{
    let mut writer = begin_encapsulation(alloc, Order::Big)?;
    writer.write_u32(version.0)?;
    Ok(writer.finish())
}

#[tactic(auto, using(crate::proofs::WritingLaws::request_written, crate::proofs::WritingLaws::request_valid))]
fn write_key(writer: &mut CdrWriter, key: &Key) -> Result<(), NoMemory>
    ensures written { OnOk result (writer.new ≡ appended request.written key.now writer.old) }
    ensures valid { OnOk result (request.Valid key.now) }
    ensures name { OnOk result (IsName key.now.client) }
{
    let retention = key.retention.0;
    let expiration = key.expiration.0;
    writer.write_string(key.client.bytes())?;
    writer.write_i32(retention)?;
    writer.write_u64(expiration)?;
    Ok(())
}

fn key_content(alloc: Global, key: &Key) -> Result<Bytes, NoMemory>
    ensures content { IfOk result (λ content. content ≡ encapsulated Order.Big request key.now) }
    ensures valid { IfOk result (λ content. request.Valid key.now) }
    ensures name { IfOk result (λ content. IsName key.now.client) }
{
    let mut writer = begin_encapsulation(alloc, Order::Big)?;
    write_key(&mut writer, key)?;
    Ok(writer.finish())
}

fn add_version(
    alloc: Global,
    contexts: &mut Vec<Context>,
    version: Option<Version>,
) -> Result<(), NoMemory>
    ensures added { OnOk result (contexts.new.items ≡ contexts.old.items ++ context_of group_version FT_GROUP_VERSION version) }
    ensures valid { OnOk result (IfSome version group_version.Valid) }
{
    if let Some(version) = version {
        let content = version_content(alloc, version)?;
        contexts.push(Context {
            id: FT_GROUP_VERSION,
            content,
        })?;
    }
    Ok(())
}

fn add_key(alloc: Global, contexts: &mut Vec<Context>, key: Option<&Key>) -> Result<(), NoMemory>
    ensures added { OnOk result (contexts.new.items ≡ contexts.old.items ++ context_of request FT_REQUEST (option_map (λ key. key.now) key.entry)) }
    ensures valid { OnOk result (IfSome (option_map (λ key. key.now) key.entry) IsWritable) }
{
    if let Some(key) = key {
        let content = key_content(alloc, key)?;
        contexts.push(Context {
            id: FT_REQUEST,
            content,
        })?;
    }
    Ok(())
}

fn write_exactly(
    alloc: Global,
    version: Option<Version>,
    key: Option<&Key>,
) -> Result<Contexts, NoMemory>
    ensures written { IfOk result (λ contexts. contexts ≡ written_contexts version (option_map (λ key. key.now) key.entry)) }
    ensures valid_version { IfOk result (λ contexts. IfSome version group_version.Valid) }
    ensures valid_key { IfOk result (λ contexts. IfSome (option_map (λ key. key.now) key.entry) IsWritable) }
{
    let mut contexts = Vec::new(alloc);
    add_version(alloc, &mut contexts, version)?;
    add_key(alloc, &mut contexts, key)?;
    Ok(Contexts::from_vec(contexts))
}

/// The contexts that tell this version and this key, in big endian order.
pub fn write_contexts(
    alloc: Global,
    version: Option<Version>,
    key: Option<&Key>,
) -> Result<Contexts, NoMemory>
    ensures written { IfOk result (λ contexts. contexts ≡ written_contexts version (option_map (λ key. key.now) key.entry)) }
    ensures found { IfOk result (λ contexts. contexts_of contexts ≡ Ok (told version (option_map (λ key. key.now) key.entry))) }
    ensures short { IfOk result (λ contexts. All IsShort contexts) }
{
    write_exactly(alloc, version, key)
}
