//! Certificates by one search of all cuts.

ghost use Rattle.std.specs.Prelude.{◌≡◌, IfOk};
ghost use Rattle.lu_serial_graph.specs.Graphs.{members_of};
ghost use Rattle.lu_cli.specs.AtOnce as spec;
ghost use Rattle.lu_cli.specs.AtOnce.{CertifiesAtOnce, ShowsPrefixes};
ghost use Rattle.lu_cli.specs.Serial.{IsSetAtSomeBound, IsSetFromStarts};

use crate::answer::{Answer, show_certificate};
use crate::request::{CertifyOptions, Repetition};
use crate::serial::MOST_LISTED;
use crate::unrolled::certify_all;
use lu_answers::Rounds;
use lu_certify::{Certificate, Progress};
use lu_forever::{Budget, RoundsVerdict, certify_rounds};
use lu_machine::Test;
use lu_replay::graph_or_offence;
use lu_serial_graph::{SerialGraph, learn_graph};
use lu_spec::Spec;
use std::alloc::{AllocError, Global};

/// The options of this search, in which a node takes more memory than one of a cut.
fn in_one_search(asked: CertifyOptions) -> CertifyOptions
    ensures { result ≡ spec.in_one_search asked }
{
    CertifyOptions {
        options: asked.options,
        local: asked.local,
        nodes: asked.nodes / 4,
    }
}

/// The certificate that lists the prefixes of the serial histories, which are those of this graph.
fn show_prefixes(
    alloc: Global,
    test: Test<'_>,
    graph: &SerialGraph<Global>,
) -> Result<Answer, AllocError>
    requires { IsSetAtSomeBound test (members_of graph.now) }
    ensures { IfOk result (ShowsPrefixes test.entry.component.now test.entry.matrix.now) }
{
    let spec = Spec::closure_of(alloc, test.matrix, &graph)?;
    show_certificate(alloc, test.component, &Certificate::Linearizable(spec))
}

/// The certificate, if all cuts are clear. This is the graph of the serial histories.
fn certify_listed<P: Progress>(
    alloc: Global,
    progress: &P,
    test: Test<'_>,
    asked: CertifyOptions,
    graph: &SerialGraph<Global>,
) -> Result<Option<Answer>, AllocError>
    requires set { IsSetFromStarts test asked.options.serial (members_of graph.now) }
    ensures { CertifiesAtOnce test.entry asked result }
{
    let (component, matrix) = (test.component, test.matrix);
    let serial = asked.options.serial();
    let budget = Budget {
        most: in_one_search(asked).nodes as usize,
        progress,
    };
    match certify_rounds(alloc, component, matrix, Rounds::One, serial, budget)? {
        RoundsVerdict::Linearizable => {
            let answer = show_prefixes(alloc, test, graph)?;
            Ok(Some(answer))
        }
        RoundsVerdict::NotLinearizable(_) => Ok(None),
        RoundsVerdict::Livelock(_) => Ok(None),
        RoundsVerdict::Offends => Ok(None),
        RoundsVerdict::Undecided => Ok(None),
    }
}

/// The certificate of the matrix, if one search of all cuts decides it. If there are too many serial
/// histories for a search of each cut, which lists them, it is the verdict on one round.
pub(crate) fn certify_at_once<P: Progress>(
    alloc: Global,
    progress: &P,
    test: Test<'_>,
    asked: CertifyOptions,
) -> Result<Option<Answer>, AllocError>
    ensures { CertifiesAtOnce test.entry asked result }
{
    let learnt = learn_graph(
        alloc,
        alloc,
        test.component,
        test.matrix,
        asked.options.serial(),
    )?;
    let graph = match graph_or_offence(learnt) {
        Ok(graph) => graph,
        Err(_) => return Ok(None),
    };
    if graph.member_count() > MOST_LISTED {
        let answer = certify_all(
            alloc,
            progress,
            test,
            in_one_search(asked),
            Repetition::UpTo(1),
        )?;
        return Ok(Some(answer));
    }
    certify_listed(alloc, progress, test, asked, &graph)
}
