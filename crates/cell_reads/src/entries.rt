// What lies in a part of the bytes: a list of bytes, a bound, a job.
ghost use Rattle.std.specs.Prelude.{◌≡◌, ◌+◌, ◌≤◌, length};
ghost use Rattle.plan_bytes.specs.Over.{bytes_from};
ghost use Rattle.cell_layout.specs.Layout.{value_of, bound_size, job_in, job_size};

use model::Job;

// A bound has two bytes.
pub(crate) fn bound_at(bounds: &[u8], at: usize) -> u16
    requires { at + bound_size ≤ length bounds.now }
    ensures { result ≡ value_of (bytes_from at bound_size bounds.now) }
{
    u16::from_le_bytes([bounds[at], bounds[at + 1]])
}

// A number of a job has four.
pub(crate) fn number_at(jobs: &[u8], at: usize) -> u32
    requires { at + 4 ≤ length jobs.now }
    ensures { result ≡ value_of (bytes_from at 4 jobs.now) }
{
    u32::from_le_bytes([jobs[at], jobs[at + 1], jobs[at + 2], jobs[at + 3]])
}

pub(crate) fn job_from(jobs: &[u8], at: usize) -> Job
    requires { at + job_size ≤ length jobs.now }
    ensures { result ≡ job_in (bytes_from at job_size jobs.now) }
{
    Job {
        number: number_at(jobs, at),
        kind: number_at(jobs, at + 4),
        stage: number_at(jobs, at + 8),
    }
}

pub(crate) fn bytes<const N: usize>(part: &[u8]) -> [u8; N]
    requires { length part.now ≡ N }
    ensures { result ≡ part.now }
{
    std::array::from_fn(|i| part[i])
}
