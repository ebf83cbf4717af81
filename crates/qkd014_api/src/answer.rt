// Making the response to a manager's reply.
ghost use Rattle.std.specs.Prelude.{◌≡◌, IfOk};
ghost use Rattle.std.specs.Option.{option_map};
ghost use Rattle.qkd014_api.specs.Answers.{answer_of, status_answer, refused_answer, end_of, IsResponse};

use crate::Api;
use crate::container::keys_body;
use crate::message::{error, numbered_error};
use crate::status::{Pool, status_body};
use http_front::HttpResponse;
use net_model::{Event, Reply};
use qkd_base::{Memory, SaeNo};
use std::alloc::Global;

impl Api {
    /// The response to a manager's reply to an event. For a reply without a response it returns `Memory`, so that the
    /// connection ends.
    pub fn response_of(
        &self,
        alloc: Global,
        event: &Event,
        reply: &Reply,
        close: bool,
    ) -> Result<HttpResponse, Memory>
        ensures { IfOk result (IsResponse (answer_of self.now.nodes self.now.entitlements event.now reply.now) close) }
    {
        match reply {
            Reply::Handed { keys } => {
                let body = keys_body(alloc, keys)?;
                Ok(HttpResponse {
                    status: 200,
                    body,
                    close,
                })
            }
            Reply::ReadyCount { count } => self.status(alloc, event, *count, close),
            _ => refused(alloc, reply, close),
        }
    }

    // The response that tells the status of a pool.
    fn status(
        &self,
        alloc: Global,
        event: &Event,
        count: u32,
        close: bool,
    ) -> Result<HttpResponse, Memory>
        ensures { IfOk result (IsResponse (status_answer self.now.nodes self.now.entitlements event.now count) close) }
    {
        let Event::Status { master, slave } = event else {
            return Err(Memory);
        };
        let (master, source) = self.end(*master).ok_or(Memory)?;
        let (slave, target) = self.end(*slave).ok_or(Memory)?;
        let pool = Pool {
            master,
            slave,
            source,
            target,
            count,
        };
        let body = status_body(alloc, &pool)?;
        Ok(HttpResponse {
            status: 200,
            body,
            close,
        })
    }

    // The ID of an application, and the name of its node.
    fn end(&self, sae: SaeNo) -> Option<(&str, &str)>
        ensures { option_map (λ e. (e.0.now, e.1.now)) result ≡ end_of self.now.nodes self.now.entitlements sae }
    {
        let id = self.entitlements.id(sae)?;
        let home = self.entitlements.home(sae).ok()?;
        let name = self.nodes.get(usize::from(home.get()))?;
        Some((id, name.as_str()))
    }
}

// The response to a reply that is no success.
fn refused(alloc: Global, reply: &Reply, close: bool) -> Result<HttpResponse, Memory>
    ensures { IfOk result (IsResponse (refused_answer reply.now) close) }
{
    match reply {
        Reply::Unknown { place } => {
            numbered_error(alloc, 400, "key ", u32::from(*place), " is unknown", close)
        }
        Reply::Repeated { place } => {
            numbered_error(alloc, 400, "key ", u32::from(*place), " is repeated", close)
        }
        Reply::AlreadyHanded { place } => numbered_error(
            alloc,
            400,
            "key ",
            u32::from(*place),
            " was handed already",
            close,
        ),
        Reply::NotAllowed => error(alloc, 401, "not allowed", close),
        Reply::Few { count } => numbered_error(alloc, 503, "", *count, " keys ready", close),
        Reply::Down => error(alloc, 503, "manager down", close),
        Reply::Stopped => error(alloc, 503, "manager stopped", close),
        Reply::JournalFull { .. } => error(alloc, 503, "journal full", close),
        Reply::Memory => error(alloc, 500, "out of memory", close),
        _ => Err(Memory),
    }
}
