//! Where lanes and lines are on a page.

ghost use Rattle.std.specs.Prelude.{◌≡◌, ◌≤◌, ◌^◌};
ghost use Rattle.rp_drawing.specs.Pages.{lane_x, name_y, names_height, line_y};

/// The width of a page.
pub const WIDTH: u64 = 860;

/// Where the texts at the left begin, and those at the right.
pub const LEFT: u64 = 4;

pub const RIGHT: u64 = 600;

/// How high a line is.
pub const LINE: u64 = 18;

/// After how many lines the names of the lanes are written again.
pub const LINES_BETWEEN_NAMES: u64 = 50;

/// How high the legend is, above the lanes' names.
const LEGEND_HEIGHT: u64 = 64;

/// A page with n lanes, 16 at most.
#[derive(Clone, Copy)]
pub struct Page {
    pub lanes: u32,
    pub ghost few: { lanes ≤ 16 },
}

impl Page {
    /// Where a lane is.
    pub fn lane_x(&self, lane: u32) -> u64
        ensures { result ≡ lane_x self.now.lanes lane }
    {
        let place = u64::from(lane);
        if self.lanes <= 6 {
            270 + 60 * place
        } else if self.lanes <= 10 {
            270 + 34 * place
        } else {
            270 + 22 * place
        }
    }

    /// How much room the names of the lanes take where they are written again.
    fn names_height(&self) -> u64
        ensures height { result ≡ names_height self.now.lanes }
        ensures few { result ≤ 248 }
    {
        14 * u64::from(self.lanes) + 24
    }

    /// Where the name of a lane is, to the right of where the lane begins: at the head of the page,
    /// which is block 0, or above line `50 * block`.
    pub fn name_y(&self, block: u64, lane: u32) -> u64
        requires { block ≤ 2 ^ 32 }
        ensures { result ≡ name_y self.now.lanes block lane }
    {
        let step = LINE * LINES_BETWEEN_NAMES + self.names_height();
        18 + LEGEND_HEIGHT + 14 * u64::from(lane) + step * block
    }

    /// Where a line begins.
    pub fn line_y(&self, line: u64) -> u64
        requires { line ≤ 2 ^ 32 }
        ensures value { result ≡ line_y self.now.lanes line }
        ensures within { result ≤ 2 ^ 40 }
    {
        let first = 30 + LEGEND_HEIGHT + 14 * u64::from(self.lanes);
        first + LINE * line + self.names_height() * (line / LINES_BETWEEN_NAMES)
    }
}
