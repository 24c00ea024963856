// A waker of a guest's virtual processor.
ghost use Rattle.std.specs.Prelude.{◌≡◌};
ghost use Rattle.bells.specs.WakerLaws.{vcpu_waking};
ghost use Rattle.bells.specs.Wakers.{made_vcpu};

use super::refusal::Refusal;
use super::waker::Waker;

const GUESTS: usize = 512;

const VCPUS: usize = 8;

// The serial tells wakers of one vCPU apart.
#[derive(Clone, Copy, PartialEq, Eq, Debug)]
pub struct VcpuWaker {
    guest: u16,
    vcpu: u8,
    serial: u32,
}

impl VcpuWaker {
    // A waker of the vCPU, unless the guest is above 511 or the vCPU above 7.
    pub fn new(guest: usize, vcpu: usize, serial: u32) -> Result<VcpuWaker, Refusal>
        ensures { result ≡ made_vcpu guest vcpu serial }
    {
        if guest >= GUESTS || vcpu >= VCPUS {
            return Err(Refusal::UnknownTask);
        }
        // `as`, since the test has shown that both fit.
        Ok(VcpuWaker {
            guest: guest as u16,
            vcpu: vcpu as u8,
            serial,
        })
    }
}

impl Waker for VcpuWaker {
    ghost waking = { vcpu_waking };

    fn target(&self) -> usize {
        usize::from(self.guest) * VCPUS + usize::from(self.vcpu)
    }

    fn will_wake(&self, other: &VcpuWaker) -> bool {
        self == other
    }
}
