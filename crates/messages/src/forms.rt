//! What a file is that is not an image or not a frame stream, and what makes one from it.

ghost use Rattle.std.specs.Prelude.{◌≡◌, bytes_eq};
ghost use Rattle.std.specs.List.{list_all};
ghost use Rattle.messages.specs.Forms.{front_of, is_text_byte, file_form_by, file_form_of, file_line, stream_line};

/// Says what a file is, by its first bytes.
#[derive(Clone, Copy)]
pub enum FileForm {
    Unknown,
    /// It has fewer than four bytes.
    Short,
    /// An ELF object, as a compiler makes it.
    Elf,
    Gzip,
    Zstd,
    Pcap,
    Pcapng,
    /// A capture that does not become a frame stream.
    UnreadCapture,
    Image,
    /// A frame stream.
    Frames,
    /// A proof table.
    Table,
    /// A program text, or any other text.
    Text,
}

// The first four bytes, or fewer.
fn front_of(bytes: &[u8]) -> &[u8]
    ensures { result.now ≡ front_of bytes.now }
{
    &bytes[..bytes.len().min(4)]
}

fn is_same(front: &[u8], magic: &[u8]) -> bool
    ensures { result ≡ bytes_eq front.now magic.now }
{
    front == magic
}

// A line feed, a tab, or a printable character of ASCII.
fn is_text_byte(byte: u8) -> bool
    ensures { result ≡ is_text_byte byte }
{
    byte == b'\n' || byte == b'\t' || (byte >= b' ' && byte < 127)
}

fn is_text(front: &[u8]) -> bool
    ensures { result ≡ list_all is_text_byte front.now }
{
    front.iter().all(|b| is_text_byte(*b))
}

fn file_form_by(front: &[u8]) -> FileForm
    ensures { result ≡ file_form_by front.now }
{
    if front.len() < 4 {
        FileForm::Short
    } else if is_same(front, b"\x7fELF") {
        FileForm::Elf
    } else if is_same(front, b"\xd4\xc3\xb2\xa1") || is_same(front, b"\xa1\xb2\xc3\xd4") {
        FileForm::Pcap
    } else if is_same(front, b"\x4d\x3c\xb2\xa1") || is_same(front, b"\xa1\xb2\x3c\x4d") {
        FileForm::Pcap
    } else if is_same(front, b"\x0a\x0d\x0d\x0a") {
        FileForm::Pcapng
    } else if is_same(front, b"XBP1") || is_same(front, b"XBP2") {
        FileForm::Image
    } else if is_same(front, b"XPF1") || is_same(front, b"XPF2") {
        FileForm::Frames
    } else if is_same(front, b"XPT1") {
        FileForm::Table
    } else if is_same(front, b"\x1f\x8b\x08\x00") || is_same(front, b"\x1f\x8b\x08\x08") {
        FileForm::Gzip
    } else if is_same(front, b"\x28\xb5\x2f\xfd") {
        FileForm::Zstd
    } else if is_text(front) && !is_same(front, b"XBP3") {
        FileForm::Text
    } else {
        FileForm::Unknown
    }
}

/// Returns what a file with these bytes is.
#[tactic(auto, unfolding(crate::specs::Forms::file_form_of))]
pub fn file_form_of(bytes: &[u8]) -> FileForm
    ensures { result ≡ file_form_of bytes.now }
{
    file_form_by(front_of(bytes))
}

impl FileForm {
    /// Returns what the file is, and what makes an image of it, in a line.
    pub fn line(self) -> &'static str
        ensures { result.now ≡ file_line self }
    {
        match self {
            FileForm::Unknown =>
                "an image is made of a text by xdpvm asm, of an ELF object by image.py\n",
            FileForm::Short => "it has fewer than 4 bytes\n",
            FileForm::Elf => "it is an ELF object: image.py makes an image of it\n",
            FileForm::Gzip => "it is packed by gzip: gunzip unpacks it\n",
            FileForm::Zstd => "it is packed by zstd: unzstd unpacks it\n",
            FileForm::Pcap => "it is a capture (pcap): xdpvm_filter convert makes a stream of it\n",
            FileForm::Pcapng =>
                "it is a capture (pcapng): xdpvm_filter convert makes a stream of it\n",
            FileForm::UnreadCapture => "it is a capture\n",
            FileForm::Image => "it is an image\n",
            FileForm::Frames => {
                "it is a frame stream: the image stands before it, as in xdpvm run\n"
            }
            FileForm::Table => {
                "it is a proof table: the image stands before it, as in xdpvm recheck\n"
            }
            FileForm::Text => "it looks like a text: xdpvm asm makes an image of it\n",
        }
    }

    /// The end of a line, and then a line that says what the file is and what makes a frame stream
    /// from it.
    pub fn stream_line(self) -> &'static str
        ensures { result.now ≡ stream_line self }
    {
        match self {
            FileForm::Unknown | FileForm::Frames =>
                "\nxdpvm_filter convert makes a stream of a capture (pcap, pcapng)\n",
            FileForm::Short => "\nit has fewer than 4 bytes\n",
            FileForm::Elf => "\nit is an ELF object: image.py makes an image of it, not frames\n",
            FileForm::Gzip => "\nit is packed by gzip: gunzip unpacks it\n",
            FileForm::Zstd => "\nit is packed by zstd: unzstd unpacks it\n",
            FileForm::Pcap =>
                "\nit is a capture (pcap): xdpvm_filter convert makes a stream of it\n",
            FileForm::Pcapng => {
                "\nit is a capture (pcapng): xdpvm_filter convert makes a stream of it\n"
            }
            FileForm::UnreadCapture => {
                "\nit is a capture that is cut in its head, or of another link type than Ethernet (1), \
                 Linux cooked (113, 276), raw IP (101) and loopback (0, 108): capinfos names it\n"
            }
            FileForm::Image => "\nit is an image: it stands before the frames, as in xdpvm run\n",
            FileForm::Table => "\nit is a proof table: it stands after --table, as in xdpvm run\n",
            FileForm::Text => {
                "\nit looks like a text: frames.py makes a stream of a text of frames\n"
            }
        }
    }
}
