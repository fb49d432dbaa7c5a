// The reader of proof files.
ghost use Rattle.std.specs.Prelude.{◌≡◌, length};
ghost use Rattle.narrow_file.specs.Narrow.{told, read_answer, after};
ghost use Rattle.coded.specs.Coded.{of_head};

use coded::File;

// A proof file from its bytes.
#[unsafe(no_mangle)]
pub extern "C" fn sendurafi_read(bytes: &[u8], messages: &mut [u32]) -> File
    ensures value { result ≡ of_head (told (read_answer bytes.now (length messages.old))) }
    ensures messages_after { messages.new ≡ after (read_answer bytes.now (length messages.old)) messages.old }
{
    narrow_file::read(bytes, messages).into()
}
