//! Runs that serve tiles: of the image in a file, as the requests in the input ask, or of a workload that
//! is drawn from a number.

ghost use Rattle.std.specs.Prelude.{◌≡◌, ◌≤◌, ℕ, List, IfOk};
ghost use Rattle.request_text.specs.Requests.{AreRequests};
ghost use Rattle.serve_texts.specs.Config.{IsServeCfg};
ghost use Rattle.serve_run.specs.Served.{Serves, report_of};
ghost use Rattle.top_call.specs.Devices.{outside_before, outside_after};
ghost use Rattle.top_call.specs.Outside.{IsLater, telling};
ghost use Rattle.top_call.specs.ServeRun.{ReadsInput, ServeEnds, ServesDrawn, GenEnds, drawn_line, served_by};

use crate::devices::Devices;
use crate::image_file::read_image;
use discard_io::{Clock, Files, Gate, ReadEnd, Sink, Source, Status, read_to_end, write_all};
use drawn_workload::{gen_line, gen_settings, generate};
use line_text::{Cause, MOST_TEXT_BYTES};
use request_text::{RequestFault, Requests, read_requests};
use serve_run::{Served, report_text, serve};
use serve_texts::ServeCfg;
use std::alloc::Global;
use std::sync::Wait;
use std::thread::Threads;
use tile_source::Image;
use units::NoMemory;

/// What a run that serves came to, and its report, which is made before anything is written.
#[derive(Drop)]
pub(crate) struct Answer {
    pub(crate) served: Served,
    pub(crate) report: Vec<u8>,
}

impl<S: Source, O: Sink, F: Files, C: Clock + Sync, T: Gate + Sync> Devices<'_, S, O, F, C, T> {
    /// Serves tiles of the image in a file, as the requests in the input ask, and writes the replies. The
    /// file is read before the input. An error is the status of a run that is not done.
    pub(crate) fn serve_file<H: Threads + Wait + Sync>(
        self,
        rt: &H,
        alloc: Global,
        file: &str,
        cfg: &ServeCfg,
    ) -> Result<Answer, Status>
        requires lawful { IsServeCfg cfg.now }
        ensures ends { ServeEnds file.now cfg.now (served_by result)
            (outside_before S.Source O.Sink F.Files self.entry)
            (outside_after S.Source O.Sink F.Files self.exit) }
        ensures report { IfOk result (λ answer. answer.report.items ≡ report_of answer.served) }
        ensures later { IsLater (outside_before S.Source O.Sink F.Files self.entry)
            (outside_after S.Source O.Sink F.Files self.exit) }
    {
        let image = match read_image(alloc, file, self.files) {
            Ok(image) => image,
            Err(status) => return Err(status),
        };
        let requests = match read_input(alloc, cfg.clients, self.input) {
            Ok(requests) => requests,
            Err(status) => return Err(status),
        };
        let answer = match served(rt, alloc, cfg, &image, &requests, self.clock, self.gate) {
            Ok(answer) => answer,
            Err(NoMemory) => return Err(Status::NoMemory),
        };
        match write_all(self.out, answer.served.replies.as_slice()) {
            Ok(()) => Ok(answer),
            Err(_) => Err(Status::WriteFault),
        }
    }
}

/// The requests that an input asks for, or the status of a run that ends here: BadInput where the input is
/// refused, ReadFault where the source failed, or NoMemory.
fn read_input<S: Source>(alloc: Global, clients: u32, input: &mut S) -> Result<Requests, Status>
    ensures reads { ReadsInput result clients (S.left input.old) (S.left input.new)
        (S.faults input.old) (S.faults input.new) }
    ensures lawful { IfOk result (λ requests. AreRequests clients requests) }
    ensures later { S.faults input.old ≤ S.faults input.new }
{
    let bytes = match read_to_end(alloc, input, MOST_TEXT_BYTES) {
        Ok(bytes) => bytes,
        Err(ReadEnd::Failed) => return Err(Status::ReadFault),
        Err(ReadEnd::TooLong) => {
            return Err(Status::BadInput {
                place: MOST_TEXT_BYTES,
                cause: Cause::Long.number(),
            });
        }
        Err(ReadEnd::NoMemory) => return Err(Status::NoMemory),
    };
    match read_requests(alloc, clients, &bytes) {
        Ok(requests) => Ok(requests),
        Err(RequestFault::Bad { place, cause }) => Err(Status::BadInput { place, cause }),
        Err(RequestFault::NoMemory) => Err(Status::NoMemory),
    }
}

/// Serves requests, and makes the report.
fn served<H: Threads + Wait + Sync, C: Clock + Sync, T: Gate + Sync>(
    rt: &H,
    alloc: Global,
    cfg: &ServeCfg,
    image: &Image,
    requests: &Requests,
    clock: &C,
    gate: &T,
) -> Result<Answer, NoMemory>
    requires lawful { IsServeCfg cfg.now }
    requires requests { AreRequests cfg.now.clients requests.now }
    ensures right { IfOk result (λ answer. Serves cfg.now image.now requests.now answer.served) }
    ensures report { IfOk result (λ answer. answer.report.items ≡ report_of answer.served) }
{
    let served = serve(rt, alloc, cfg, image, requests, clock, gate)?;
    let report = report_text(alloc, &served)?;
    Ok(Answer { served, report })
}

/// Serves the workload that is drawn from a number, and writes the line that tells its replies. An error
/// is the status of a run that is not done.
pub(crate) fn serve_drawn<H: Threads + Wait + Sync, O: Sink, C: Clock + Sync, T: Gate + Sync>(
    rt: &H,
    alloc: Global,
    n: u64,
    out: &mut O,
    clock: &C,
    gate: &T,
) -> Result<Answer, Status>
    ensures ends { GenEnds n (served_by result)
        (telling (O.written out.old) (O.faults out.old))
        (telling (O.written out.new) (O.faults out.new)) }
    ensures report { IfOk result (λ answer. answer.report.items ≡ report_of answer.served) }
    ensures writes { O.faults out.old ≤ O.faults out.new }
{
    let (answer, line) = match drawn(rt, alloc, n, clock, gate) {
        Ok(made) => made,
        Err(NoMemory) => return Err(Status::NoMemory),
    };
    match write_all(out, &line) {
        Ok(()) => Ok(answer),
        Err(_) => Err(Status::WriteFault),
    }
}

/// Serves the workload that is drawn from a number, and makes the line that tells its replies.
fn drawn<H: Threads + Wait + Sync, C: Clock + Sync, T: Gate + Sync>(
    rt: &H,
    alloc: Global,
    n: u64,
    clock: &C,
    gate: &T,
) -> Result<(Answer, Vec<u8>), NoMemory>
    ensures right { IfOk result (λ made. ServesDrawn n made.0.served) }
    ensures line { IfOk result (λ made. made.1.items ≡ drawn_line n) }
    ensures report { IfOk result (λ made. made.0.report.items ≡ report_of made.0.served) }
{
    let workload = generate(alloc, n)?;
    let cfg = gen_settings();
    let answer = served(
        rt,
        alloc,
        &cfg,
        &workload.image,
        &workload.requests,
        clock,
        gate,
    )?;
    let line = gen_line(alloc, n, &answer.served.replies)?;
    Ok((answer, line))
}
