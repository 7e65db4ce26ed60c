// A grid of levels, four references by two modes, and the row that a record holds it in.
#![tactic(auto)]

ghost use Rattle.std.specs.Prelude.{◌≡◌};
ghost use Rattle.segment_grid.specs.Grid.{grid_of, row_of};

pub type Grid = [[u8; 2]; 4];

pub fn grid_of(row: [u8; 8]) -> Grid
    ensures { result ≡ grid_of row }
{
    [
        [row[0], row[1]],
        [row[2], row[3]],
        [row[4], row[5]],
        [row[6], row[7]],
    ]
}

pub fn row_of(grid: Grid) -> [u8; 8]
    ensures { result ≡ row_of grid }
{
    [
        grid[0][0], grid[0][1], grid[1][0], grid[1][1], grid[2][0], grid[2][1], grid[3][0],
        grid[3][1],
    ]
}
