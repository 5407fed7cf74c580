//! Where the host's things lie.
ghost use Rattle.std.specs.Prelude.{◌+◌, ◌<◌, ◌^◌};

use ebc_base::Sequence;

/// How many bytes each thing of the native area has: the gate, a method, a thunk, a handle.
pub(crate) const AREA_STEP: u64 = 16;

/// How many handles there are.
pub(crate) const HANDLES: u32 = 1024;

/// Where the things of a run lie (docs/HOST.md, "Memory"), and what tells it of the notes.
#[derive(Drop)]
pub(crate) struct Places {
    /// The base of the native area, which is the gate.
    pub native: u64,
    /// The base of the stack, and its bytes.
    pub stack: u64,
    pub stack_bytes: u64,
    /// The base of the image, and the bytes that it takes.
    pub image: u64,
    pub image_size: u32,
    /// The bases of the script's objects, also of those that aren't made yet.
    pub objects: Sequence<u64>,
    /// How many methods and functions the notes have.
    pub methods: u32,
    pub functions: u32,
    /// The places of the static objects.
    pub statics: Sequence<u32>,
    /// The bytes of an instance of each shape.
    pub sizes: Sequence<u64>,
    ghost native_low: { native < 2 ^ 34 },
    ghost stack_low: { stack + stack_bytes < 2 ^ 63 },
    ghost image_low: { image < 2 ^ 63 },
    ghost few_methods: { methods < 2 ^ 32 },
    ghost few_functions: { functions < 2 ^ 32 },
}

impl Places {
    ghost use Rattle.std.specs.Prelude.{◌≡◌, ◌*◌};
    ghost use Rattle.host_model.specs.Placements.{area_step};
    ghost use Rattle.native_host.specs.Kept.{instance_bytes, object_base};

    /// The address of a method.
    pub fn method_at(&self, method: u32) -> u64
        ensures { result ≡ self.now.native + area_step * (1 + method) }
    {
        self.native + AREA_STEP * (1 + u64::from(method))
    }

    /// The address of a function's thunk.
    pub fn thunk_at(&self, function: u32) -> u64
        ensures { result ≡ self.now.native + area_step * (1 + self.now.methods + function) }
    {
        self.native + AREA_STEP * (1 + u64::from(self.methods) + u64::from(function))
    }

    /// The address of a handle.
    pub fn handle_at(&self, handle: u32) -> u64
        ensures { result ≡ self.now.native + area_step * (1 + self.now.methods + self.now.functions + handle) }
    {
        let before = 1 + u64::from(self.methods) + u64::from(self.functions);
        self.native + AREA_STEP * (before + u64::from(handle))
    }

    /// The base of a typed object: a static one lies in the image.
    pub fn object_base(&self, object: u64) -> u64
        ensures { result ≡ object_base self.now object }
    {
        let statics = self.statics.as_slice();
        if object < statics.len() as u64 {
            return self.image + u64::from(statics[object as usize]);
        }
        let number = object - statics.len() as u64;
        match self.objects.as_slice().get(number as usize) {
            Some(base) => *base,
            None => 0,
        }
    }

    /// How many bytes an instance of the shape of that number has, none where there is no such shape.
    pub fn instance_bytes(&self, shape: u32) -> u64
        ensures { result ≡ instance_bytes self.now shape }
    {
        match self.sizes.as_slice().get(shape as usize) {
            Some(size) => *size,
            None => 0,
        }
    }
}
