//! Why a frame stream ended early, and a hint.

ghost use Rattle.std.specs.Prelude.{◌≡◌, OnOk, OnErr};
ghost use Rattle.std.specs.Io.KnownBytes.{Appends};
ghost use Rattle.exact_io.specs.Transfers.{AppendsBeginning};
ghost use Rattle.messages.specs.Faults.{fault_sentence, long_hint, fault_hint, fault_rest, fault_lines};

use crate::forms::FileForm;
use crate::texts::write_texts;
use isa_model::Fault;
use std::io;
use std::io::Write;

// Why a frame stream, or a capture with this file form, ended early.
fn fault_sentence(fault: Fault, form: FileForm) -> &'static str
    ensures { result.now ≡ fault_sentence fault form }
{
    match (fault, form) {
        (Fault::TooLong, FileForm::Pcap) =>
            "the capture is damaged: a packet has more than 262144 bytes",
        (Fault::TooLong, FileForm::Pcapng) =>
            "the capture is damaged: the lengths of a block do not agree or are over 4194304, or \
             the interface of a packet is not described or has another link type",
        (fault, _) => fault.sentence(),
    }
}

// The end of the line, and then a line with a hint, where a frame is too long.
fn long_hint(form: FileForm) -> &'static str
    ensures { result.now ≡ long_hint form }
{
    match form {
        FileForm::Pcap | FileForm::Pcapng =>
            "\nthe packets before it were read: make the capture again\n",
        _ => "\nshorten the frame, or make a stream of XPF2 by xdpvm_filter convert --reasons\n",
    }
}

// The end of the line with the sentence, and then a line with a hint; for a file with another
// magic, a line that says what the file is.
fn fault_hint(fault: Fault, form: FileForm) -> &'static str
    ensures { result.now ≡ fault_hint fault form }
{
    match fault {
        Fault::BadMagic => form.stream_line(),
        Fault::TruncatedHead | Fault::TruncatedBody => "\nthe file was cut: make it again\n",
        Fault::TooLong => long_hint(form),
        Fault::ReadFailed => "\nsee that it is a file, and that the disk is sound\n",
        Fault::TooManyRecords => "\nsplit the stream\n",
    }
}

// What the frames out hold, if the stream's magic is wrong.
fn fault_rest(fault: Fault) -> &'static str
    ensures { result.now ≡ fault_rest fault }
{
    match fault {
        Fault::BadMagic => "the frames out are a magic alone\n",
        _ => "",
    }
}

/// Says why a frame stream whose first bytes have this file form ended early, and in the next line
/// a hint.
pub fn say_fault<W: Write>(err: &mut W, fault: Fault, form: FileForm) -> io::Result<()>
    ensures ok { OnOk result
        (Appends (W.contents err.old) (W.contents err.new) (fault_lines fault form)) }
    ensures err { OnErr result
        (AppendsBeginning (W.contents err.old) (W.contents err.new) (fault_lines fault form)) }
{
    write_texts(
        err,
        fault_sentence(fault, form),
        fault_hint(fault, form),
        fault_rest(fault),
    )
}
