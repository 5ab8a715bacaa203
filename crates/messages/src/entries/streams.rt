//! What docs/REFUSALS.md says of the codes of streams and maps (by checks/entries.py).

ghost use Rattle.std.specs.Prelude.{IfSome};
ghost use Rattle.messages.specs.Entries.{IsEntryOf};

/// The entry of a code, if it is one of these.
pub fn entry(code: &str) -> Option<&'static str>
    ensures { IfSome result (λ text. IsEntryOf code.now text.now) }
{
    let text = match code {
        "F1" => "F1, the stream does not begin with `XPF1` or `XPF2`. It is not a frame\n\
             stream; a capture has to be converted \
             (docs/GUIDE.md#frames-from-a-capture).\n\
             The message says what the file is by its first four bytes. The frames \
             out are\n\
             then only `XPF1`.\n\
             \n    \
             # fault F1 at 0\n    \
             # the stream does not begin with XPF1 or XPF2\n    \
             # it is a capture (pcap): xdpvm_filter convert makes a stream of it\n    \
             # the frames out are a magic alone\n    \
             d4c3b2a1              # a pcap file\n",
        "F2" => "F2, the stream ends within a record's head of 20 bytes, in `XPF2` of \
             24.\n\
             The file was cut.\n\
             \n    \
             # fault F2 at 4\n    \
             # the stream ends within the head of a record\n    \
             # the file was cut: make it again\n    \
             58504631\n    \
             e803000000000000 01000000\n",
        "F3" => "F3, a frame longer than 4,096 bytes, in `XPF2` than 9,216. Shorten it,\n\
             split the stream there, or convert it to `XPF2` (`xdpvm_filter convert\n\
             --reasons`). Of a capture that `xdpvm_filter` reads: a packet or a \
             block that\n\
             is none (docs/FORMATS.md#captures); the message says at which byte it \
             begins.\n\
             The packets before it were read: make the capture again.\n\
             \n    \
             # fault F3 at 4\n    \
             # the frame is longer than 4096 bytes, or than 9216 in XPF2\n    \
             # shorten the frame, or make a stream of XPF2 by xdpvm_filter convert \
             --reasons\n    \
             58504631\n    \
             e803000000000000 01000000 00000000 01100000    # 4,097 bytes\n",
        "F4" => "F4, the stream ends within a frame's bytes. The file was cut.\n\
             \n    \
             # fault F4 at 4\n    \
             # the stream ends within the bytes of a frame\n    \
             # the file was cut: make it again\n    \
             58504631\n    \
             e803000000000000 01000000 00000000 02000000 ff # one byte of two\n",
        "F5" => "F5, the system reported an error while the stream was read, as for a\n\
             directory. Look at the file and the disk.\n\
             \n    \
             $ xdpvm run examples/pass.image examples sent.frames\n    \
             fault F5 at 0\n",
        "F6" => "F6, a record after 4,294,967,295 records. Split the stream.\n",
        "M1" => "M1, the line does not have the form `map <index> <key> <value>`.\n\
             Example: `map 0 0a0 01`, at column 10; `map 0 0a0b 01 `, with a space \
             at its\n\
             end, at column 14; `map 0`, at column 7, where the key would begin.\n\
             What to do: Put one space between fields, and two hexadecimal digits \
             for each\n\
             byte. A comment has `#` before it.\n",
        "M2" => "M2, no map has this index.\n\
             Example: `map 2 0a0b 01`, at column 5.\n\
             What to do: Maps are counted from 0, in the order of the image.\n",
        "M3" => "M3, the key has another size than the map's keys.\n\
             Example: `map 0 0a 01`, at column 7.\n\
             What to do: Write all bytes of the key, zeros too. The key of an array \
             is its\n\
             index in 4 bytes, the lowest first.\n",
        "M4" => "M4, the value has another size than the map's values.\n\
             Example: `map 0 0a0b 0102`, at column 12.\n\
             What to do: Write all bytes of the value, zeros too.\n",
        "M5" => "M5, the hash map is full, or the index is past the array's end.\n\
             Example: a third key of map 0; `map 1 03000000 0000`, at column 7.\n\
             What to do: Take fewer keys, or give the map more entries.\n",
        "M6" => "M6, the line is longer than any line of this image's maps.\n\
             Example: `map 1 03000000 0000000`, at column 20.\n\
             What to do: Look for a line feed that is missing.\n",
        "M7" => "M7, the text cannot be read.\n\
             Example: The source failed in this line; the lines before it were \
             done.\n",
        "H1" => "H1, out of memory, before a byte was written.\n\
             The program: `out of memory`, status 5.\n",
        "H2" => "H2, the report could not be written.\n\
             The program: `cannot write standard output`, status 4.\n",
        "H3" => "H3, the frames out could not be written.\n\
             The program: `cannot write` and the path, status 4.\n",
        _ => return None,
    };
    Some(text)
}
