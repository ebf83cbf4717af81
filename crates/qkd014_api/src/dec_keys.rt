// Requests of a slave for its keys (ETSI GS QKD 014 V1.1.1, Get key with key IDs).
ghost use Rattle.qkd014_api.specs.Gives.{Gives};
ghost use Rattle.qkd014_api.specs.Calls.{dec_by_query, dec_by_body};

use crate::body::{key_ids, name, object};
use crate::fault::CallFault;
use crate::query::{Given, parameter};
use net_model::Event;
use qkd_base::{Names, SaeNo};
use std::alloc::Global;

/// The event that asks for the key that a query names.
pub(crate) fn dec_by_query(
    alloc: Global,
    query: &[u8],
    master: SaeNo,
    slave: SaeNo,
) -> Result<Event, CallFault>
    ensures { Gives (dec_by_query query.now master slave) result }
{
    let Given::Once(text) = parameter(alloc, query, "key_ID")? else {
        return Err(CallFault::BadKeyId);
    };
    let name = name(text.as_str()).ok_or(CallFault::BadKeyId)?;
    let mut names = Names::new(alloc);
    names.push(name)?;
    Ok(Event::Dec {
        slave,
        master,
        names,
    })
}

/// The event that asks for the keys that a body names.
pub(crate) fn dec_by_body(
    alloc: Global,
    body: &[u8],
    master: SaeNo,
    slave: SaeNo,
) -> Result<Event, CallFault>
    ensures { Gives (dec_by_body body.now master slave) result }
{
    let object = object(alloc, body)?;
    let names = key_ids(alloc, &object)?;
    Ok(Event::Dec {
        slave,
        master,
        names,
    })
}
