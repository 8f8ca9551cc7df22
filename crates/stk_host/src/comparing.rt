ghost use Rattle.std.specs.Prelude.{◌≡◌, ◌+◌, ◌≤◌, ◌^◌, length, map, Some};
ghost use Rattle.stk_host.specs.Operations.{comparison, differs, difference_from};

use crate::fault::HostFault;
use avr_image::Image;
use avr_part::Mem;

/// Compares a run of an image, which begins at `addr`, with the memory's bytes from there on.
fn compare_run(mem: Mem, addr: u32, run: &[u8], bytes: &[u8]) -> Result<(), HostFault>
    requires there { length run.now ≤ length bytes.now }
    requires short { addr + length run.now ≤ 2 ^ 32 }
    ensures { result ≡ differs mem (difference_from addr (map (λ byte. Some byte) run.now) bytes.now) }
{
    // Comparing slices is fast. The loop looks for the address only if they differ.
    if run == &bytes[..run.len()] {
        return Ok(());
    }
    for (i, want) in run.iter().enumerate() {
        let found = bytes[i];
        if found != *want {
            return Err(HostFault::Differs(mem, addr + i as u32, *want, found));
        }
    }
    Ok(())
}

/// Compares the bytes of a memory with the image, from the lowest address up.
pub(crate) fn compare(mem: Mem, image: &Image, bytes: &[u8]) -> Result<(), HostFault>
    requires { length image.now ≤ length bytes.now }
    ensures { result ≡ comparison mem image.now bytes.now }
{
    // The memory may be larger than the image.
    let found = &bytes[..image.size() as usize];
    for (addr, run) in image.runs() {
        compare_run(mem, addr, run, &found[addr as usize..])?;
    }
    Ok(())
}
